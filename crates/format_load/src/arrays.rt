// A format loaded into arrays that are large enough. A local array is cleared at each call, so small ones are tried first.
ghost use Rattle.std.specs.Prelude.{◌≡◌, ◌≤◌, length, IfSome, IfNone};
ghost use Rattle.format_items.specs.Refusals.{longest_format};
ghost use Rattle.format_items.specs.Size.{largest_size};
ghost use Rattle.format_load.specs.Lent.{TakesRuns, UnderFormat};
ghost use Rattle.format_load.specs.Loaded.{loaded};

use crate::load::load;
use crate::{LoadError, SHORT_FORMAT};
use format_items::{FormatRefusal, LARGEST_SIZE, LONGEST_FORMAT};
use format_words::Entry;
use format_words::packed::Packed;
use format_words::run::Run;

// The longest run that the arrays for short formats hold.
const SHORT_RUN: usize = 64;

// Loads with an array of so many entries, which are needed only here. Not inlined, so that the stack of the walk has no entries.
#[inline(never)]
fn load_run<'a, const ENTRIES: usize>(
    format: &[u8],
    chars: &'a mut [u8],
    words: &'a mut [Packed],
) -> Result<Run<'a>, LoadError>
    requires { ENTRIES ≤ longest_format }
    ensures { loaded format.now ENTRIES (length chars.old) (length words.old) result }
{
    let mut entries = [Entry::ZERO; ENTRIES];
    load(format, &mut entries, chars, words)
}

// With arrays for a format of at most CHARS bytes that has a run of at most RUN words; `None` where they are too small for this
// format. Not inlined, so that the stack of a call holds the arrays of one size.
#[inline(never)]
fn within<const CHARS: usize, const RUN: usize, T, R, F: Fn(Run<'_>, &mut [T]) -> R>(
    format: &[u8],
    lent: &mut [T],
    f: &F,
) -> Option<Result<R, FormatRefusal>>
    requires takes { TakesRuns F.Fn f.now lent.old }
    requires sizes { (CHARS ≤ longest_format) × (RUN ≤ largest_size) }
    ensures ran { IfSome result (λ answer. UnderFormat F.Fn f.now format.now lent.old answer lent.new) }
    ensures too_small { IfNone result (longest_format ≤ CHARS → largest_size ≤ RUN → ⊥) }
    ensures unchanged { IfNone result (lent.new ≡ lent.old) }
{
    let mut chars = [0u8; CHARS];
    let mut words = [Packed::ZERO; RUN];
    match load_run::<CHARS>(format, &mut chars, &mut words) {
        Err(LoadError::TooSmall) => None,
        Err(LoadError::Refused(refusal)) => Some(Err(refusal)),
        Ok(run) => Some(Ok(f(run, lent))),
    }
}

// Loads the format, and hands its run and the lent slice to `f`. (The slice is a parameter of `f` and not captured, so that what a
// call leaves in it is known.) No format needs larger arrays than the last.
pub fn with_run<T, R, F: Fn(Run<'_>, &mut [T]) -> R + Drop>(
    format: &[u8],
    lent: &mut [T],
    f: F,
) -> Result<R, FormatRefusal>
    requires { TakesRuns F.Fn f lent.old }
    ensures { UnderFormat F.Fn f format.now lent.old result lent.new }
{
    if let Some(answer) = within::<SHORT_FORMAT, SHORT_RUN, T, R, F>(format, lent, &f) {
        return answer;
    }
    within::<LONGEST_FORMAT, LARGEST_SIZE, T, R, F>(format, lent, &f).unwrap()
}
