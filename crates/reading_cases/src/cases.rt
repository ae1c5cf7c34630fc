// One case.
use crate::answers::show_answer;
use crate::records::bytes_of;
use case_lines::lines::data_of;
use case_lines::marks::{MARKS, front};
use case_lines::numbers::numbers;
use case_lines::sheets::Sheet;
use case_lines::shown::{Refused, show_records};
use list_elements::List;
use sheet_read::read::read;
use sheet_write::write::write;
use std::io;

// The numbers of a case's first line: the record width, the text area's length, and the length of the buffer written into.
#[derive(Clone, Copy, PartialEq, Eq, Debug)]
struct Sizes {
    width: usize,
    area: usize,
    buffer: usize,
}

impl Sizes {
    // Those of a line that begins with a letter.
    fn new(head: &[u8]) -> Self {
        let [width, area, buffer] = numbers::<3>(data_of(head));
        Sizes {
            width,
            area,
            buffer,
        }
    }
}

// Reads one sheet with an area full of marks, of the length that the case has, and shows the answer.
fn show_reading(
    rt: &impl Print,
    sizes: Sizes,
    format: &[u8],
    wanted: List,
    records: &[u8],
) -> io::Result<()> {
    let mut space = MARKS;
    let area = front(&mut space, sizes.area);
    let given = read(sizes.width, format, wanted, area, records);
    show_answer(rt, &given, area)
}

// Writes one sheet into a buffer full of marks, shows the answer, and reads the sheet back from the whole buffer.
fn show_both(rt: &impl Print, sizes: Sizes, sheet: &Sheet) -> io::Result<()> {
    let mut space = MARKS;
    let buffer = front(&mut space, sizes.buffer);
    match write(sizes.width, sheet.format, sheet.list, sheet.bytes, buffer) {
        Ok(counts) => {
            show_records(rt, counts, buffer)?;
            show_reading(rt, sizes, sheet.format, sheet.list, buffer)
        }
        Err(refusal) => rt.println(Refused(refusal)),
    }
}

// A case of writing and reading, which begins with a `W`, or of reading, whose records are those of a line.
pub fn show_case(rt: &impl Print, sheet: &Sheet) -> io::Result<()> {
    let sizes = Sizes::new(sheet.head);
    if sheet.head.starts_with(b"W") {
        return show_both(rt, sizes, sheet);
    }
    let mut space = MARKS;
    let records = bytes_of(sheet.bytes, &mut space);
    show_reading(rt, sizes, sheet.format, sheet.list, records)
}
