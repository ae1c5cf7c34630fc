// Why the program answers no sheet.
use std::{fmt, io};

#[derive(Drop)]
pub enum Failure {
    // A read of standard input failed.
    Read(io::Error),
    // A write to standard output failed: what stands there may be cut off.
    Write(io::Error),
}

impl fmt::Display for Failure {
    fn fmt<W: fmt::Write>(&self, f: &mut fmt::Formatter<W>) -> fmt::Result {
        match self {
            Failure::Read(why) => write!(f, "standard input could not be read: {why}"),
            Failure::Write(why) => write!(f, "standard output could not be written: {why}"),
        }
    }
}
