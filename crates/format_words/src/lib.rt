// Items met as words, and the items of a format as entries.
#![tactic(auto)]

pub mod packed;
pub mod run;

use crate::packed::Packed;
use settings::SettingItem;

// An item met. The numbers of a literal are the offset and the count of its characters, which are kept beside the words.
#[derive(Clone, Copy, PartialEq, Eq, Debug)]
pub enum Word {
    I { width: u16 },
    F { width: u16, places: u16 },
    L { width: u16 },
    A,
    Aw { width: u16 },
    X { count: u16 },
    T { column: u16 },
    Slash,
    Literal { start: u16, len: u16 },
    Setting { item: SettingItem },
}

// An item with its repeat; or a group with its repeat, whose items are held by so many of the entries after it. (Fixed memory, a
// rule of the project, so a count of entries and no `Box` or `Vec`. Fields lie in the order of the source: with the repeat first an
// entry takes 8 bytes, else 12.)
#[derive(Clone, Copy, PartialEq, Eq, Debug)]
pub enum Entry {
    Item { repeat: u16, word: Packed },
    Group { entries: u16, repeat: u16 },
}

impl Entry {
    // What an array of entries holds before it is filled.
    pub const ZERO: Entry = Entry::Item {
        repeat: 0,
        word: Packed::ZERO,
    };
}
