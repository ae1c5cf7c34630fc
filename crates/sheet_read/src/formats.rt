// Under a format: loaded, and its run walked.
ghost use Rattle.std.specs.Prelude.{List, ℕ, length};
ghost use Rattle.format_load.specs.Loaded.{RunHeld};
ghost use Rattle.sheet_read.specs.Parts.{WantedWithin, ReadText};

use format_load::arrays::with_run;
use format_words::run::Run;
use list_elements::texts::texts_fit;
use list_elements::{BadElement, Element};
use read_passes::Sheet;
use read_passes::reading::read_pass;
use sheet_walk::Refusal;
use sheet_walk::records::Records;
use sheet_walk::width::Width;

// Under a format that was loaded, if the wanted elements are good, their texts have room and there is a record: rows 6, 13 and
// 9, and the walk. Not inlined: compiled into the closure below, it takes up to 9 of 100 instructions more.
#[inline(never)]
fn read_run(
    width: Width,
    run: Run<'_>,
    wanted: Result<&[Element], BadElement>,
    room: usize,
    records: &[u8],
    found: &mut [Element],
) -> Result<usize, Refusal>
    requires { WantedWithin wanted (length found.old) }
    ensures { (format : List ℕ) → RunHeld format run.entry → ReadText width.columns format wanted.entry room records.now result found.new }
{
    let wanted = wanted?;
    if !texts_fit(wanted, room) {
        return Err(Refusal::TextArea);
    }
    let lent = Records::lent(width, records)?;
    let sheet = Sheet {
        run,
        wanted,
        records: lent,
        bytes: records,
    };
    read_pass(sheet, found)
}

// Rows 2 to 6, 13 and 9, and the walk: under any format. (`found` is lent to the closure, so it is in no struct with the others.)
pub fn read_under(
    width: Width,
    format: &[u8],
    wanted: Result<&[Element], BadElement>,
    room: usize,
    records: &[u8],
    found: &mut [Element],
) -> Result<usize, Refusal>
    requires { WantedWithin wanted (length found.old) }
    ensures { ReadText width.columns format.now wanted.entry room records.now result found.new }
{
    with_run(format, found, move |run, found| {
        read_run(width, run, wanted, room, records, found)
    })?
}
