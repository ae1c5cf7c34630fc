// The records written of a sheet: checked first, and laid only where nothing is refused.
ghost use Rattle.std.specs.Prelude.{◌*◌, ◌≤◌, length};
ghost use Rattle.write_passes.specs.Passes.{values_of, walk_of};
ghost use Rattle.sheet_write.specs.Writing.{walked};
ghost use Rattle.sheet_write.specs.Parts.{Wrote};

use sheet_walk::placing::{FEW_ELEMENTS, PART, SMALL_PART};
use sheet_walk::{Counts, Cover, Refusal};
use write_passes::checking::check_pass;
use write_passes::laying::{lay, lay_pass};
use write_passes::{Sheet, has_sp};

// With room for so many items at once. Not inlined, so that a call's stack holds the room of one size.
#[inline(never)]
fn write_parts(sheet: Sheet<'_>, buffer: &mut [u8], covers: &mut [Cover]) -> Result<Counts, Refusal>
    requires some { 1 ≤ length covers.old }
    requires room { sheet.records.count * sheet.records.width ≤ length buffer.old }
    ensures { Wrote sheet.entry.records.width sheet.entry.list.area.now (values_of sheet.entry) buffer.old (walked (values_of sheet.entry) (walk_of sheet.entry)) result buffer.new }
{
    let checked = check_pass(sheet, covers)?;
    buffer[..checked.records * sheet.records.width].fill(b' ');
    let starred = match checked.whole {
        Some(count) => lay(buffer, &covers[..count], 0, has_sp(sheet.run.words), sheet),
        None => lay_pass(buffer, sheet, covers),
    };
    Ok(Counts {
        records: checked.records,
        starred,
    })
}

pub fn write_records(sheet: Sheet<'_>, buffer: &mut [u8]) -> Result<Counts, Refusal>
    requires { sheet.records.count * sheet.records.width ≤ length buffer.old }
    ensures { Wrote sheet.entry.records.width sheet.entry.list.area.now (values_of sheet.entry) buffer.old (walked (values_of sheet.entry) (walk_of sheet.entry)) result buffer.new }
{
    if sheet.list.elements.len() <= FEW_ELEMENTS {
        return write_parts(sheet, buffer, &mut [Cover::ZERO; SMALL_PART]);
    }
    write_parts(sheet, buffer, &mut [Cover::ZERO; PART])
}
