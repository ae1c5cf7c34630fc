// An example: checks a format, writes a sheet of two dimmers, reads it back and prints what the calls gave.
#![tactic(auto)]

mod formats;
mod sheets;
mod shown;

use crate::formats::wrong_at;
use crate::sheets::{WIDTH, read_back, write_dimmers, write_text};
use crate::shown::{show_list, show_place, show_records, show_refusal};
use std::io;

fn main(rt: HostRuntime) -> io::Result<()> {
    let out = &mut rt.stdout();
    show_place(out, wrong_at(b"(I5,F8)"))?;
    let mut buffer = [0u8; 4 * WIDTH];
    match write_text(&mut buffer) {
        Ok(counts) => show_records(out, &buffer, counts)?,
        Err(refusal) => show_refusal(out, refusal)?,
    }
    match write_dimmers(&mut buffer) {
        Ok(counts) => show_records(out, &buffer, counts)?,
        Err(refusal) => return show_refusal(out, refusal),
    }
    let mut names = [0u8; 6];
    match read_back(&buffer, &mut names) {
        Ok(read) => show_list(out, read.list, &names),
        Err(refusal) => show_refusal(out, refusal),
    }
}
