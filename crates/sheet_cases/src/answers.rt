// The answers of writing.
use case_lines::shown::{show_records, show_refusal};
use sheet_walk::{Counts, Refusal};
use std::io;

pub fn show_answer(
    rt: &impl Print,
    answer: Result<Counts, Refusal>,
    buffer: &[u8],
) -> io::Result<()> {
    match answer {
        Ok(counts) => show_records(rt, counts, buffer),
        Err(refusal) => show_refusal(rt, refusal, buffer),
    }
}
