// Formats through the compiled library. A line of standard input is a format, for which the format check's answer is
// written; after an equals sign it is a format whose items met are written. Formats with a line feed in them stand here.
#![tactic(auto)]

mod answers;
mod runs;

use case_lines::lines::{Lines, input_bytes};
use std::io;

// One line.
fn show_line(rt: &impl Print, line: &[u8]) -> io::Result<()> {
    match line {
        [b'=', format @ ..] => runs::show_run(rt, format),
        format => answers::show_check(rt, format),
    }
}

fn main(rt: HostRuntime) -> io::Result<()> {
    let input = input_bytes(&rt)?;
    let mut lines = Lines { rest: &input };
    while let Some(line) = lines.next_line() {
        show_line(&rt, line)?;
    }
    answers::show_check(&rt, b"(I4\n)")?;
    answers::show_check(&rt, b"('A\nB')")
}
