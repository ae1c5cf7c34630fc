// Sheets as text: writing from a list text, and the whole input and output of the program `trimsheet`.
#![tactic(auto)]

mod lines;
mod records;
pub mod sheet;
mod width;
pub mod writing;

// The bytes of the record buffer: 64 KiB.
pub const RECORD_BUFFER: usize = 65536;

// Room for every output: as many line feeds as bytes of records at most, and a last line.
pub const OUTPUT: usize = 2 * RECORD_BUFFER + 128;

// As many bytes of its input as the program keeps: of a longer one the rest does not matter (`sheet::sheet` promises it).
pub const INPUT: usize = 8192;
