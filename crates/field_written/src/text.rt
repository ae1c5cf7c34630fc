// The text field.
ghost use Rattle.std.specs.Prelude.{◌≡◌, length};
ghost use Rattle.field_written.specs.TextField.{text_field};

use crate::blanks::fill_blanks;
use buffer::copying::copy;

// The text under Aw, w the columns of the part.
#[tactic(auto, unfolding(crate::specs::TextField::text_field))]
#[inline(always)]
pub fn write_text(part: &mut [u8], text: &[u8])
    ensures { part.new ≡ text_field (length part.old) text.now }
{
    let width = part.len();
    if text.len() <= width {
        let (blanks, shown) = part.split_at_mut(width - text.len());
        fill_blanks(blanks);
        copy(shown, text);
        return;
    }
    copy(part, &text[..width]);
}
