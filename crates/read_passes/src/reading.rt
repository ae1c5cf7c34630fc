// The pass of reading: what the fields give, and how the walk ends.
ghost use Rattle.std.specs.Prelude.{◌≡◌, List, ℕ, ◌≤◌, length};
ghost use Rattle.list_elements.specs.Contents.{Content};
ghost use Rattle.list_elements.specs.Elements.{kinds_of};
ghost use Rattle.sheet_walk.specs.Walk.{Trace};
ghost use Rattle.read_passes.specs.Given.{accepted};
ghost use Rattle.read_passes.specs.Passes.{ending_of, walk_of, gathered_of, BeginsIn, SomeBegins, Gathering, TookAs, FoundSoFar};

use crate::Sheet;
use crate::fields::find;
use list_elements::Element;
use sheet_walk::placing::{FEW_ELEMENTS, PART, SMALL_PART, Stop};
use sheet_walk::walk::Walk;
use sheet_walk::{Cover, Refusal};

// Takes what the fields among these columns hold, in order; so many elements are taken before. The first element whose field is
// no such field. Not inlined: compiled into `read_pass`, its loop has fewer registers.
#[inline(never)]
pub fn take(
    covers: &[Cover],
    first: usize,
    sheet: Sheet<'_>,
    found: &mut [Element],
) -> Option<usize>
    requires begins { SomeBegins sheet first covers.now }
    requires long { length sheet.wanted.now ≤ length found.old }
    ensures { (start : Trace) (taken : ℕ) (whole left : Trace) → BeginsIn sheet.entry first covers.now whole taken left → Gathering sheet.entry start first whole found.old → TookAs sheet.entry start taken left found.new result }
{
    let mut taken = first;
    for cover in covers {
        if !cover.word.is_literal() {
            let part = &sheet.bytes[cover.at..cover.at + cover.word.columns()];
            let value = sheet.wanted[taken].value;
            let Some(value) = find(value, cover.word.detail(), part, cover.at) else {
                return Some(taken);
            };
            found[taken] = Element { value };
            taken += 1;
        }
    }
    None
}

// With room for so many items at once. Not inlined, so that a call's stack holds the room of one size.
#[inline(never)]
fn read_parts(
    sheet: Sheet<'_>,
    covers: &mut [Cover],
    found: &mut [Element],
) -> Result<usize, Refusal>
    requires some { 1 ≤ length covers.old }
    requires long { length sheet.wanted.now ≤ length found.old }
    ensures ends { result ≡ ending_of (gathered_of sheet.entry (walk_of sheet.entry)) }
    ensures found { (cs : List Content) (n : ℕ) → gathered_of sheet.entry (walk_of sheet.entry) ≡ accepted cs n → FoundSoFar sheet.entry.bytes.now (kinds_of sheet.entry.wanted.now) found.new cs }
{
    let mut walk = Walk::new(sheet.run, sheet.wanted, sheet.records);
    loop {
        let first = walk.taken();
        let placed = walk.place(covers);
        if let Some(place) = take(&covers[..placed.count], first, sheet, found) {
            return Err(Refusal::FieldText { place });
        }
        match placed.stop {
            Stop::Ends { records } => return Ok(records),
            Stop::Refused(why) => return Err(why),
            Stop::Full => {}
        }
    }
}

// The records reached, or the first refusal on the walk; what the fields hold is put in order.
pub fn read_pass(sheet: Sheet<'_>, found: &mut [Element]) -> Result<usize, Refusal>
    requires { length sheet.wanted.now ≤ length found.old }
    ensures ends { result ≡ ending_of (gathered_of sheet.entry (walk_of sheet.entry)) }
    ensures found { (cs : List Content) (n : ℕ) → gathered_of sheet.entry (walk_of sheet.entry) ≡ accepted cs n → FoundSoFar sheet.entry.bytes.now (kinds_of sheet.entry.wanted.now) found.new cs }
{
    if sheet.wanted.len() <= FEW_ELEMENTS {
        return read_parts(sheet, &mut [Cover::ZERO; SMALL_PART], found);
    }
    read_parts(sheet, &mut [Cover::ZERO; PART], found)
}
