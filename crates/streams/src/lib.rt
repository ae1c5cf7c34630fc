// What `trimsheet` reads of its input and writes to its output, and what holds where that fails. Its memory is fixed, so it reads into a
// buffer of its own: no `read_to_end` into a `Vec`.
#![tactic(auto)]

pub mod reading;
pub mod writing;

// How many reads, or writes, in a row are tried again that a signal interrupted.
pub const RETRIES: usize = 1000;
