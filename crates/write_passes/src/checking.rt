// The check of a walk in writing: where its items stand, and whether their values fit.
ghost use Rattle.std.specs.Prelude.{◌≡◌, ℕ, ◌≤◌, length};
ghost use Rattle.sheet_walk.specs.Walk.{Trace};
ghost use Rattle.write_passes.specs.Placed.{judged};
ghost use Rattle.write_passes.specs.Passes.{values_of, walk_of, BeginsIn, SomeBegins, CheckedTo, CheckedAs};

use crate::Sheet;
use crate::fields::too_large;
use sheet_walk::placing::Stop;
use sheet_walk::walk::Walk;
use sheet_walk::{Cover, Refusal};

// The first element among these columns whose value is too large for its field; so many are taken before.
fn first_too_large(covers: &[Cover], first: usize, sheet: Sheet<'_>) -> Option<usize>
    requires { SomeBegins sheet first covers.now }
    ensures { (taken : ℕ) (whole left : Trace) → BeginsIn sheet.entry first covers.now whole taken left → CheckedTo result (judged (values_of sheet.entry) whole) (judged (values_of sheet.entry) left) }
{
    let mut taken = first;
    for cover in covers {
        if !cover.word.is_literal() {
            if too_large(cover.word.detail(), sheet.list.elements[taken].value) {
                return Some(taken);
            }
            taken += 1;
        }
    }
    None
}

// A walk that is accepted: the records reached, and how many items cover columns, where all of them were placed at once; then the
// slice holds them all, and the walk need not be walked again. Only speed depends on that.
#[derive(Clone, Copy, PartialEq, Eq, Debug)]
pub struct Checked {
    pub records: usize,
    pub whole: Option<usize>,
}

// The records reached, or the first refusal on the walk.
pub fn check_pass(sheet: Sheet<'_>, covers: &mut [Cover]) -> Result<Checked, Refusal>
    requires { 1 ≤ length covers.old }
    ensures { CheckedAs sheet.entry covers.new (judged (values_of sheet.entry) (walk_of sheet.entry)) result }
{
    let mut walk = Walk::new(sheet.run, sheet.list.elements, sheet.records);
    let mut at_once = true;
    loop {
        let first = walk.taken();
        let placed = walk.place(covers);
        if let Some(place) = first_too_large(&covers[..placed.count], first, sheet) {
            return Err(Refusal::TooLarge { place });
        }
        match placed.stop {
            Stop::Ends { records } => {
                let whole = at_once.then_some(placed.count);
                return Ok(Checked { records, whole });
            }
            Stop::Refused(why) => return Err(why),
            Stop::Full => {}
        }
        at_once = false;
    }
}
