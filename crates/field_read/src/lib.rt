// Fields read: integers under Iw, decimals under Fw.d, logicals under Lw, texts under Aw. A field that is no number, or no
// logical, is read as `None`.
#![tactic(auto)]

mod answer;
pub mod decimal;
mod digits;
pub mod integer;
mod leading;
pub mod logical;
pub mod text;

// A number read: its units, and its places (0 under I). (A type of its own: an integer is read as one too, and `Decimal` is a list's
// element alone.)
#[derive(Clone, Copy, PartialEq, Eq, Debug)]
pub struct Number {
    pub units: i64,
    pub places: usize,
}

// A run of digits: the number that they make after a number before, how many they are, and what is left after them and the
// blanks that follow.
#[derive(Clone, Copy)]
struct Run<'a> {
    value: u64,
    count: usize,
    rest: &'a [u8],
}
