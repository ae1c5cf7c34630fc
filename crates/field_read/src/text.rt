// The text field.
ghost use Rattle.std.specs.Prelude.{◌≡◌, length};
ghost use Rattle.field_read.specs.TextRead.{text_read};

use buffer::copying::copy;

// The text in a field under Aw, as long as `text` is.
#[tactic(auto, unfolding(crate::specs::TextRead::text_read))]
pub fn read_text(text: &mut [u8], part: &[u8])
    ensures { text.new ≡ text_read (length text.old) part.now }
{
    let width = part.len();
    if text.len() <= width {
        copy(text, &part[width - text.len()..]);
        return;
    }
    let (shown, blanks) = text.split_at_mut(width);
    copy(shown, part);
    blanks.fill(b' ');
}
