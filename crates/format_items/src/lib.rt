// Items of a format: their limits, and the refusals of the format check. The definitions and theorems are in specs/ and proofs/.
#![tactic(auto)]

ghost use Rattle.std.specs.Prelude.{◌≡◌};

// The longest format, in bytes.
pub const LONGEST_FORMAT: usize = 1024;

// The largest size.
pub const LARGEST_SIZE: usize = 4096;

// The largest r, and n in X and T; the largest w; the largest d.
pub const LARGEST_COUNT: u16 = 255;

pub const LARGEST_WIDTH: u16 = 64;

pub const LARGEST_PLACES: u16 = 9;

// A format refused: rows 2 to 5 of the rules' 'Checks by place'.
#[derive(Clone, Copy, PartialEq, Eq, Debug)]
pub enum FormatRefusal {
    Length,
    Grammar { place: usize },
    Range { place: usize },
    Size,
}

// Refusals as the rules number and place them.
impl FormatRefusal {
    ghost use Rattle.format_items.specs.Refusals.{refusal_number, refusal_place};

    // The number of a refusal.
    pub fn number(self) -> u64
        ensures { result ≡ refusal_number self }
    {
        match self {
            FormatRefusal::Length => 2,
            FormatRefusal::Grammar { .. } => 3,
            FormatRefusal::Range { .. } => 4,
            FormatRefusal::Size => 5,
        }
    }

    // Its place.
    pub fn place(self) -> usize
        ensures { result ≡ refusal_place self }
    {
        match self {
            FormatRefusal::Length => LONGEST_FORMAT,
            FormatRefusal::Grammar { place } | FormatRefusal::Range { place } => place,
            FormatRefusal::Size => 0,
        }
    }
}
