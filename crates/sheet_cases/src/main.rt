// Sheets written by the compiled library. A case of standard input has these lines: the record width and the buffer's length;
// the format; the text area; a line for each element (`I n`, `D u s`, `L T` or `L F`, `A start len`); `N` and a count, where
// the count is not that of the elements; a period. The buffer is full of `#` before the call. For each case one line is
// written: the answer and the whole buffer; or the refusal's number and place, and whether the buffer was changed.
#![tactic(auto)]

mod answers;
mod cases;

use case_lines::lines::{Lines, input_bytes};
use case_lines::sheets::Sheet;
use std::io;

fn main(rt: HostRuntime) -> io::Result<()> {
    let input = input_bytes(&rt)?;
    let mut lines = Lines { rest: &input };
    // A case takes the lines after its first from the same `Lines`.
    while let Some(head) = lines.next_line() {
        cases::show_case(&rt, &Sheet::from_lines(head, &mut lines))?;
    }
    Ok(())
}
