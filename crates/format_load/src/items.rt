// The items of a format, checked: rows 3 to 5.
ghost use Rattle.std.specs.Prelude.{◌≤◌, length};
ghost use Rattle.format_items.specs.Refusals.{longest_format};
ghost use Rattle.format_load.specs.ItemsChecked.{items_checked};

use crate::CheckedItems;
use format_grammar::LEVELS;
use format_items::{FormatRefusal, LARGEST_SIZE};
use format_read::format::read_format;
use format_run::size::size_of;
use format_words::Entry;

// The items of a text, as entries and characters; refused where the text is not of the grammar, a number is out of its
// range, or the size is too large.
pub fn check_items(
    text: &[u8],
    entries: &mut [Entry],
    chars: &mut [u8],
) -> Result<CheckedItems, FormatRefusal>
    requires { (length text.now ≤ longest_format) × (length text.now ≤ length entries.old) × (length text.now ≤ length chars.old) }
    ensures { items_checked text.now entries.new chars.new result }
{
    let end = read_format(text, entries, chars)?;
    if let Some(place) = end.outside {
        return Err(FormatRefusal::Range { place });
    }
    let size = size_of(&entries[..end.entries], LEVELS);
    if LARGEST_SIZE < size {
        return Err(FormatRefusal::Size);
    }
    Ok(CheckedItems {
        entries: end.entries,
        size,
    })
}
