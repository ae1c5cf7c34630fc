// A format's text read into entries and the characters of its literals.
#![tactic(auto)]

ghost use Rattle.std.specs.Prelude.{◌≡◌, ◌≤◌, length};
ghost use Rattle.format_items.specs.Refusals.{longest_format};
ghost use Rattle.format_items.specs.declared.FormatRefusal.TheVariants.{Grammar};

mod digits;
pub mod format;
mod heads;
mod items;
mod literals;
mod range;
mod singles;

use format_items::FormatRefusal;
use format_words::Word;

// Where a reader stands in a format's text: the offset of the next byte, how many entries and characters there are, and the
// offset of the first number out of range so far. An entry and a character each stand for a byte that was read. (Counts, and no
// `Vec`: fixed memory, a rule of the project, so entries and characters go into lent arrays.)
#[derive(Clone, Copy, PartialEq, Eq, Debug)]
pub struct Position<'a> {
    pub text: &'a [u8],
    pub at: usize,
    pub entries: usize,
    pub chars: usize,
    pub outside: Option<usize>,
    ghost short: { length text.now ≤ longest_format },
    ghost within: { at ≤ length text.now },
    ghost few_entries: { entries ≤ at },
    ghost few_chars: { chars ≤ at },
}

// A text that is not of the grammar: the offset of the byte that cannot go on.
#[derive(Clone, Copy, PartialEq, Eq, Debug)]
pub struct Ungrammatical {
    pub place: usize,
}

impl From<Ungrammatical> for FormatRefusal {
    ghost from_gives = { λ e refusal. refusal ≡ Grammar e.place };

    fn from(e: Ungrammatical) -> FormatRefusal {
        FormatRefusal::Grammar { place: e.place }
    }
}

// A number of at most three digits: its value, if there is a digit, and the offset after it.
#[derive(Clone, Copy, PartialEq, Eq, Debug)]
struct Number {
    value: Option<u16>,
    next: usize,
}

// A number that is there: its value, and the offset after it.
#[derive(Clone, Copy, PartialEq, Eq, Debug)]
struct Found {
    value: u16,
    next: usize,
}

// An item that is neither a group nor a literal: its word and repeat, and the offset after it.
#[derive(Clone, Copy, PartialEq, Eq, Debug)]
struct Single {
    word: Word,
    repeat: u16,
    next: usize,
}

// A literal: the offset after it, and how many characters there are then.
#[derive(Clone, Copy, PartialEq, Eq, Debug)]
struct Literal {
    next: usize,
    end: usize,
}

// What an item begins with: all of it, or the opening of a group.
#[derive(Clone, Copy, PartialEq, Eq, Debug)]
enum Head {
    Whole,
    Group { repeat: u16 },
}
