// One case.
use crate::answers::show_answer;
use case_lines::marks::{MARKS, front};
use case_lines::numbers::numbers;
use case_lines::sheets::Sheet;
use sheet_write::write::write;
use std::io;

// Writes the sheet into a buffer full of marks, of the length that the case has, and shows the answer.
pub fn show_case(rt: &impl Print, sheet: &Sheet) -> io::Result<()> {
    let [width, room] = numbers::<2>(sheet.head);
    let mut space = MARKS;
    let buffer = front(&mut space, room);
    let answer = write(width, sheet.format, sheet.list, sheet.bytes, buffer);
    show_answer(rt, answer, buffer)
}
