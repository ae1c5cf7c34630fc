// The whole format.
ghost use Rattle.std.specs.Prelude.{◌≤◌, length};
ghost use Rattle.format_items.specs.Refusals.{longest_format};
ghost use Rattle.format_read.specs.Whole.{format_read};

use crate::{Position, Ungrammatical};
use format_grammar::LEVELS;
use format_words::Entry;

// A format's text: its entries and characters, or the offset of the byte that cannot go on.
pub fn read_format<'a>(
    text: &'a [u8],
    entries: &mut [Entry],
    chars: &mut [u8],
) -> Result<Position<'a>, Ungrammatical>
    requires { (length text.now ≤ longest_format) × (length text.now ≤ length entries.old) × (length text.now ≤ length chars.old) }
    ensures { format_read text.now entries.new chars.new result }
{
    if text.first() != Some(&b'(') {
        return Err(Ungrammatical { place: 0 });
    }
    let mut p = Position {
        text,
        at: 1,
        entries: 0,
        chars: 0,
        outside: None,
    };
    p.read_items(LEVELS, entries, chars)?;
    if p.at < text.len() {
        return Err(Ungrammatical { place: p.at });
    }
    Ok(p)
}
