// What is printed of an answer.
ghost use Rattle.std.specs.Prelude.{◌++◌, Some, codes, decimal};
ghost use Rattle.sheet_walk.specs.Refusals.{refusal_number, refusal_place};

use crate::marks::is_marked;
use sheet_walk::{Counts, Refusal};
use std::{fmt, io};

// A refusal as it is printed: its number and place.
#[derive(Clone, Copy, PartialEq, Eq, Debug)]
pub struct Refused(pub Refusal);

impl fmt::Display for Refused {
    ghost output = { λ r. Some (codes "refused " ++ decimal (refusal_number r.0) ++ codes " " ++ decimal (refusal_place r.0)) };

    fn fmt<W: fmt::Write>(&self, f: &mut fmt::Formatter<W>) -> fmt::Result {
        write!(f, "refused {} {}", self.0.number(), self.0.place())
    }
}

// The counts of an accepted sheet as they are printed.
#[derive(Clone, Copy, PartialEq, Eq, Debug)]
pub struct Accepted(pub Counts);

impl fmt::Display for Accepted {
    ghost output = { λ a. Some (codes "records " ++ decimal a.0.records ++ codes " starred " ++ decimal a.0.starred) };

    fn fmt<W: fmt::Write>(&self, f: &mut fmt::Formatter<W>) -> fmt::Result {
        write!(f, "records {} starred {}", self.0.records, self.0.starred)
    }
}

// Bytes between bars. They need be no text, so no `Display` can write them.
pub fn show_bytes(rt: &impl Print, bytes: &[u8]) -> io::Result<()> {
    rt.write_all(b"|")?;
    rt.write_all(bytes)?;
    rt.write_all(b"|")
}

// An accepted writing on a line: the counts, and the whole buffer.
pub fn show_records(rt: &impl Print, counts: Counts, buffer: &[u8]) -> io::Result<()> {
    print!(rt; "{} ", Accepted(counts))?;
    show_bytes(rt, buffer)?;
    println!(rt)
}

// A refused sheet on a line: the refusal, and whether the bytes lent were changed.
pub fn show_refusal(rt: &impl Print, refusal: Refusal, lent: &[u8]) -> io::Result<()> {
    let changed = if is_marked(lent) { "" } else { " changed" };
    println!(rt; "{}{changed}", Refused(refusal))
}
