// The pass of reading over the walk, and the list made after it.
#![tactic(auto)]

ghost use Rattle.std.specs.Prelude.{◌*◌, ◌≤◌, length};

pub mod fields;
pub mod giving;
pub mod reading;

use format_words::run::Run;
use list_elements::Element;
use sheet_walk::records::Records;

// A sheet to be read: the run of its format, the elements wanted, and the records, which lie in these bytes.
#[derive(Clone, Copy)]
pub struct Sheet<'a> {
    pub run: Run<'a>,
    pub wanted: &'a [Element],
    pub records: Records,
    pub bytes: &'a [u8],
    ghost room: { records.count * records.width ≤ length bytes.now },
}
