// Sheets read by the compiled library. A case of standard input has these lines: `R`, the record width and the text area's
// length; the format; the records, in which a backslash and two hex digits (`a` to `f` small) stand for a byte, and two
// backslashes for one; a line for each element wanted (`I`, `D`, `L`, `A start len`; other data after `I`, `D` and `L` is
// junk, and so is the start of a text); `N` and a count, where the count is not that of the elements; a period. The area is
// full of `#` before the call. For each case one line is written: the counts, the values read (`I n`, `D units places`, `L T`
// or `L F`, `A start len`) and the whole area; or the refusal's number and place. Words are added where a refusal left a
// changed area, or where the elements past the count are not 0.
//
// In a second sort of case, `W`, the record width, the text area's length and a buffer's length, a list is written and then
// read back: the third line is the text area of the writing, and the elements are written as well as wanted. The buffer is full
// of `#` before the writing; the reading is from the whole of it. A line with the writing's answer and the buffer goes before
// that of the reading, which is left out where the writing was refused.
//
// A line that begins with an asterisk, before a case, is written as it stands.
#![tactic(auto)]

mod answers;
mod cases;
mod records;
mod values;

use case_lines::lines::{Lines, input_bytes};
use case_lines::sheets::Sheet;
use std::io;

fn main(rt: HostRuntime) -> io::Result<()> {
    let input = input_bytes(&rt)?;
    let mut lines = Lines { rest: &input };
    // A case takes the lines after its first from the same `Lines`.
    while let Some(line) = lines.next_line() {
        if line.starts_with(b"*") {
            // The bytes need be no text, so no `Display` can write them.
            rt.write_all(line)?;
            println!(rt)?;
        } else {
            cases::show_case(&rt, &Sheet::from_lines(line, &mut lines))?;
        }
    }
    Ok(())
}
