// Refusals as the rules number and place them.
ghost use Rattle.std.specs.Prelude.{◌≡◌};
ghost use Rattle.sheet_walk.specs.declared.Refusal.TheVariants.{Format, Element};

use crate::Refusal;
use format_items::FormatRefusal;
use list_elements::BadElement;

impl Refusal {
    ghost use Rattle.sheet_walk.specs.Refusals.{refusal_number, refusal_place};

    // The number of a refusal.
    pub fn number(self) -> u64
        ensures { result ≡ refusal_number self }
    {
        match self {
            Refusal::RecordWidth => 1,
            Refusal::Format(why) => why.number(),
            Refusal::Element { place: _ } => 6,
            Refusal::TextArea => 13,
            Refusal::NoRecord | Refusal::NextRecord { place: _ } => 9,
            Refusal::NoField { place: _ } => 10,
            Refusal::Kind { place: _ } => 7,
            Refusal::Column { place: _ } => 8,
            Refusal::TooLarge { place: _ } => 11,
            Refusal::FieldText { place: _ } => 12,
        }
    }

    // Its place.
    pub fn place(self) -> usize
        ensures { result ≡ refusal_place self }
    {
        match self {
            Refusal::RecordWidth | Refusal::TextArea | Refusal::NoRecord => 0,
            Refusal::Format(why) => why.place(),
            Refusal::Element { place }
            | Refusal::NextRecord { place }
            | Refusal::NoField { place }
            | Refusal::Kind { place }
            | Refusal::Column { place }
            | Refusal::TooLarge { place }
            | Refusal::FieldText { place } => place,
        }
    }
}

impl From<FormatRefusal> for Refusal {
    ghost from_gives = { λ why refusal. refusal ≡ Format why };

    fn from(why: FormatRefusal) -> Refusal {
        Refusal::Format(why)
    }
}

impl From<BadElement> for Refusal {
    ghost from_gives = { λ bad refusal. refusal ≡ Element bad.place };

    fn from(bad: BadElement) -> Refusal {
        Refusal::Element { place: bad.place }
    }
}
