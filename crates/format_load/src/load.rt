// A format's text, loaded.
ghost use Rattle.std.specs.Prelude.{length};
ghost use Rattle.format_load.specs.Loaded.{loaded, loaded_into};

use crate::LoadError;
use crate::items::check_items;
use format_grammar::LEVELS;
use format_items::{FormatRefusal, LONGEST_FORMAT};
use format_run::unroll::{Unrolled, unroll};
use format_words::Entry;
use format_words::packed::Packed;
use format_words::run::Run;

// A format's text checked (rows 2 to 5), and its items unrolled: the run is the first `end` words of `run`, with the characters that
// stand in `chars`, and the walk returns to the word at `back`; `TooSmall` where the arrays are too small.
pub fn load_into(
    format: &[u8],
    entries: &mut [Entry],
    chars: &mut [u8],
    run: &mut [Packed],
) -> Result<Unrolled, LoadError>
    ensures { loaded_into format.now (length entries.old) (length chars.old) (length run.old) chars.new run.new result }
{
    if LONGEST_FORMAT < format.len() {
        return Err(LoadError::Refused(FormatRefusal::Length));
    }
    if entries.len() < format.len() || chars.len() < format.len() {
        return Err(LoadError::TooSmall);
    }
    let items = check_items(format, entries, chars)?;
    if run.len() < items.size {
        return Err(LoadError::TooSmall);
    }
    Ok(unroll(&entries[..items.entries], LEVELS, run))
}

// The same, as a run that borrows its words and characters. (Of an array that is lent to the run nothing can be said after the call;
// who keeps the arrays calls `load_into`.)
pub fn load<'a>(
    format: &[u8],
    entries: &mut [Entry],
    chars: &'a mut [u8],
    run: &'a mut [Packed],
) -> Result<Run<'a>, LoadError>
    ensures { loaded format.now (length entries.old) (length chars.old) (length run.old) result }
{
    let unrolled = load_into(format, entries, chars, run)?;
    Ok(Run {
        words: &run[..unrolled.end],
        back: unrolled.back,
        chars,
    })
}
