// Elements that may be written.
ghost use Rattle.std.specs.Prelude.{◌≡◌, true, All};
ghost use Rattle.list_elements.specs.Elements.{value_of};
ghost use Rattle.list_elements.specs.Limits.{within_limits};

use crate::Element;

// Elements within their limits, and the area that their texts lie in.
#[derive(Clone, Copy)]
pub struct Listed<'a> {
    pub elements: &'a [Element],
    pub area: &'a [u8],
    ghost within: { All (λ e. within_limits area.now (value_of e) ≡ true) elements.now },
}
