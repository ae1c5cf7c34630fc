// The format check.
ghost use Rattle.std.specs.Prelude.{◌≡◌, ◌≤◌, length};
ghost use Rattle.format_grammar.specs.Check.{outcome, outcome_number, outcome_place};
ghost use Rattle.format_items.specs.Refusals.{longest_format};
ghost use Rattle.format_check.specs.Checked.{answer, answer_number, answer_place};

use format_items::{FormatRefusal, LONGEST_FORMAT};
use format_load::SHORT_FORMAT;
use format_load::items::check_items;
use format_words::Entry;

// Formats of at most so many bytes, and short ones, get arrays of their own.
const MEDIUM_FORMAT: usize = 256;

// Rows 3 to 5, for a text of at most N bytes: with room for the items of one so long. Not inlined, so that the stack of a call
// holds the arrays of one size.
#[inline(never)]
fn check_within<const N: usize>(text: &[u8]) -> Result<(), FormatRefusal>
    requires { (length text.now ≤ N) × (N ≤ longest_format) }
    ensures { result ≡ answer (outcome text.now) }
{
    let mut entries = [Entry::ZERO; N];
    let mut chars = [0u8; N];
    check_items(text, &mut entries, &mut chars)?;
    Ok(())
}

// Whether a format is accepted, or else the refusal; any bytes, any length. The arrays are cleared at each call, so a short
// format gets small ones.
pub fn check(format: &[u8]) -> Result<(), FormatRefusal>
    ensures answers { result ≡ answer (outcome format.now) }
    ensures number { answer_number result ≡ outcome_number (outcome format.now) }
    ensures place { answer_place result ≡ outcome_place (outcome format.now) }
{
    match format.len() {
        ..=SHORT_FORMAT => check_within::<SHORT_FORMAT>(format),
        ..=MEDIUM_FORMAT => check_within::<MEDIUM_FORMAT>(format),
        ..=LONGEST_FORMAT => check_within::<LONGEST_FORMAT>(format),
        _ => Err(FormatRefusal::Length),
    }
}
