// A format loaded: its text checked, and its items unrolled into a run of words.
#![tactic(auto)]

ghost use Rattle.std.specs.Prelude.{◌≡◌};
ghost use Rattle.format_load.specs.declared.LoadError.TheVariants.{Refused};

pub mod arrays;
pub mod items;
pub mod load;

use format_items::FormatRefusal;

// A local array is cleared at each call, and most formats are short: those of at most so many bytes get arrays of their own.
pub const SHORT_FORMAT: usize = 64;

// A format's items: how many entries hold them, in a lent array (fixed memory, so no `Vec`), and their size.
#[derive(Clone, Copy, PartialEq, Eq, Debug)]
pub struct CheckedItems {
    pub entries: usize,
    pub size: usize,
}

// Why a format is not loaded.
#[derive(Clone, Copy, PartialEq, Eq, Debug)]
pub enum LoadError {
    // The format is refused.
    Refused(FormatRefusal),
    // The arrays are too small for this format.
    TooSmall,
}

impl From<FormatRefusal> for LoadError {
    ghost from_gives = { λ refusal e. e ≡ Refused refusal };

    fn from(refusal: FormatRefusal) -> LoadError {
        LoadError::Refused(refusal)
    }
}
