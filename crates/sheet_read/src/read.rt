// The public call.
ghost use Rattle.std.specs.Prelude.{◌≡◌, length};
ghost use Rattle.sheet_walk.specs.Answers.{answer_number, answer_place, answer_records, answer_starred};
ghost use Rattle.sheet_read.specs.Reading.{reading, answer_in, list_in, read_answer, read_list, read_area, reading_number, reading_place, reading_records, reading_starred};

use crate::SheetRead;
use crate::formats::read_under;
use list_elements::{Element, List};
use read_passes::giving::give;
use sheet_walk::width::Width;
use sheet_walk::{Counts, Refusal};

// Reads the elements wanted under the format from records of this width; their texts are laid in the area. Or refuses, and
// leaves the area as it was. Of the wanted list only kinds and text lengths are looked at. Any width, any bytes, any list.
pub fn read(
    width: usize,
    format: &[u8],
    wanted: List,
    area: &mut [u8],
    records: &[u8],
) -> Result<SheetRead, Refusal>
    ensures answers { answer_in result ≡ read_answer width format.now wanted area.old records.now }
    ensures values { list_in result ≡ read_list width format.now wanted area.old records.now }
    ensures texts { area.new ≡ read_area width format.now wanted area.old records.now }
    ensures number { answer_number (answer_in result) ≡ reading_number (reading width format.now wanted (length area.old) records.now) }
    ensures place { answer_place (answer_in result) ≡ reading_place (reading width format.now wanted (length area.old) records.now) }
    ensures records { answer_records (answer_in result) ≡ reading_records (reading width format.now wanted (length area.old) records.now) }
    ensures starred { answer_starred (answer_in result) ≡ reading_starred (reading width format.now wanted (length area.old) records.now) }
{
    let width = Width::try_from(width)?;
    let wanted = wanted.wanted();
    let mut found = [Element::ZERO; List::MOST];
    let reached = read_under(width, format, wanted, area.len(), records, &mut found)?;
    let counts = Counts {
        records: reached,
        starred: 0,
    };
    let list = List::empty();
    let mut read = SheetRead { counts, list };
    give(wanted.unwrap(), &found, records, area, &mut read.list);
    Ok(read)
}
