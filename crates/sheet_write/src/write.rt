// The public call.
ghost use Rattle.std.specs.Prelude.{◌≡◌, length};
ghost use Rattle.list_elements.specs.Elements.{values};
ghost use Rattle.sheet_walk.specs.Answers.{answer_number, answer_place, answer_records, answer_starred};
ghost use Rattle.sheet_write.specs.Writing.{writing, write_answer, write_buffer, writing_number, writing_place, writing_records, writing_starred};

use crate::formats::write_under;
use list_elements::List;
use sheet_walk::width::Width;
use sheet_walk::{Counts, Refusal};

// Writes the list, its texts being in the area, under the format into records of this width in the buffer; or refuses, and
// leaves the buffer as it was. Any width, any bytes, any list.
pub fn write(
    width: usize,
    format: &[u8],
    list: List,
    area: &[u8],
    buffer: &mut [u8],
) -> Result<Counts, Refusal>
    ensures answers { result ≡ write_answer width format.now list area.now buffer.old }
    ensures bytes { buffer.new ≡ write_buffer width format.now list area.now buffer.old }
    ensures number { answer_number result ≡ writing_number (writing width format.now list area.now (length buffer.old)) }
    ensures place { answer_place result ≡ writing_place (writing width format.now list area.now (length buffer.old)) }
    ensures records { answer_records result ≡ writing_records (writing width format.now list area.now (length buffer.old)) }
    ensures starred { answer_starred result ≡ writing_starred (values list) (writing width format.now list area.now (length buffer.old)) }
{
    let width = Width::try_from(width)?;
    write_under(width, format, list.listed(area), buffer)
}
