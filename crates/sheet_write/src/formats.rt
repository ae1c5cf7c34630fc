// Under a format: loaded, and its run walked.
ghost use Rattle.std.specs.Prelude.{List, ℕ};
ghost use Rattle.format_load.specs.Loaded.{RunHeld};
ghost use Rattle.sheet_write.specs.Parts.{WroteText};

use crate::records::write_records;
use format_load::arrays::with_run;
use format_words::run::Run;
use list_elements::BadElement;
use list_elements::listed::Listed;
use sheet_walk::records::Records;
use sheet_walk::width::Width;
use sheet_walk::{Counts, Refusal};
use write_passes::Sheet;

// Under a format that was loaded, if the list is good and there is a record: rows 6 and 9, and the walk. (Reading has rows and a
// pass of its own; what both share is called.)
fn write_run(
    width: Width,
    run: Run<'_>,
    list: Result<Listed<'_>, BadElement>,
    buffer: &mut [u8],
) -> Result<Counts, Refusal>
    ensures { (format : List ℕ) → RunHeld format run.entry → WroteText width.columns format list.entry buffer.old result buffer.new }
{
    let list = list?;
    let records = Records::lent(width, buffer)?;
    write_records(Sheet { run, list, records }, buffer)
}

// Rows 2 to 6 and 9, and the walk: under any format.
pub fn write_under(
    width: Width,
    format: &[u8],
    list: Result<Listed<'_>, BadElement>,
    buffer: &mut [u8],
) -> Result<Counts, Refusal>
    ensures { WroteText width.columns format.now list.entry buffer.old result buffer.new }
{
    with_run(format, buffer, move |run, buffer| {
        write_run(width, run, list, buffer)
    })?
}
