// The answers of reading.
use crate::values::{show_values, zeros_follow};
use case_lines::shown::{Accepted, show_bytes, show_refusal};
use sheet_read::SheetRead;
use sheet_walk::{Counts, Refusal};
use std::io;

// An accepted reading: the counts, the values, and the whole area.
fn show_accepted(rt: &impl Print, given: &SheetRead, area: &[u8]) -> io::Result<()> {
    rt.print(Accepted(given.counts))?;
    show_values(rt, &given.list)?;
    print!(rt; " ")?;
    show_bytes(rt, area)?;
    let not_zero = if zeros_follow(&given.list) {
        ""
    } else {
        " not 0"
    };
    println!(rt; "{not_zero}")
}

pub fn show_answer(
    rt: &impl Print,
    given: &Result<SheetRead, Refusal>,
    area: &[u8],
) -> io::Result<()> {
    match given {
        Ok(given) => show_accepted(rt, given, area),
        Err(refusal) => show_refusal(rt, *refusal, area),
    }
}
