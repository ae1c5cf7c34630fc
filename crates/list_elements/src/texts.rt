// The lengths of texts.
ghost use Rattle.std.specs.Prelude.{◌≡◌, leb};
ghost use Rattle.list_elements.specs.Elements.{kind_of, kinds_of, text_length};
ghost use Rattle.list_elements.specs.Limits.{texts_length};

use crate::{Element, Value};

impl Value {
    // The length of a text; 0 of another kind, so that a sum passes over it.
    pub fn text_len(self) -> usize
        ensures { result ≡ text_length (kind_of self) }
    {
        match self {
            Value::Text(text) => text.len,
            Value::Integer(_) | Value::Decimal(_) | Value::Logical(_) => 0,
        }
    }
}

// Whether the texts of these elements have room, end to end, in so many bytes.
pub fn texts_fit(elements: &[Element], room: usize) -> bool
    ensures { result ≡ leb (texts_length (kinds_of elements.now)) room }
{
    let mut left = room;
    for element in elements {
        let len = element.value.text_len();
        if left < len {
            return false;
        }
        left -= len;
    }
    true
}
