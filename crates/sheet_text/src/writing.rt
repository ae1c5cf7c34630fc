// Writing, the list as list text.
ghost use Rattle.std.specs.Prelude.{◌≡◌, length};
ghost use Rattle.list_text.specs.ListText.{line_check, line_values, line_read};
ghost use Rattle.sheet_walk.specs.Answers.{answer_number, answer_place, answer_records, answer_starred};
ghost use Rattle.sheet_write.specs.Writing.{writing_number, writing_place, writing_records, writing_starred};
ghost use Rattle.list_elements.specs.Checked.{listed_as};
ghost use Rattle.sheet_text.specs.FromListText.{writing_from, answer_from, buffer_from};

use list_elements::listed::Listed;
use list_elements::{BadElement, List};
use list_text::read::read_list;
use sheet_walk::width::Width;
use sheet_walk::{Counts, Refusal};
use sheet_write::formats::write_under;

// The elements of a list that was read, which are within their limits, the text being their area.
fn listed<'a>(read: &'a Result<List, BadElement>, text: &'a [u8]) -> Result<Listed<'a>, BadElement>
    requires { read.now ≡ line_read text.now }
    ensures { listed_as (line_check text.now) (line_values text.now) text.now result }
{
    match read {
        Ok(list) => Ok(Listed {
            elements: &list.elements[..list.count],
            area: text,
        }),
        Err(bad) => Err(*bad),
    }
}

// Writes the list of a list text under the format into records of this width in the buffer; or refuses, and leaves the buffer
// as it was. Any width, any bytes.
pub fn write_list_text(
    width: usize,
    format: &[u8],
    text: &[u8],
    buffer: &mut [u8],
) -> Result<Counts, Refusal>
    ensures answers { result ≡ answer_from width format.now text.now buffer.old }
    ensures bytes { buffer.new ≡ buffer_from width format.now text.now buffer.old }
    ensures number { answer_number result ≡ writing_number (writing_from width format.now text.now (length buffer.old)) }
    ensures place { answer_place result ≡ writing_place (writing_from width format.now text.now (length buffer.old)) }
    ensures records { answer_records result ≡ writing_records (writing_from width format.now text.now (length buffer.old)) }
    ensures starred { answer_starred result ≡ writing_starred (line_values text.now) (writing_from width format.now text.now (length buffer.old)) }
{
    let width = Width::try_from(width)?;
    let read = read_list(text);
    write_under(width, format, listed(&read, text), buffer)
}
