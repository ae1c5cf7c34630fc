// The walk over the items met, for writing and reading: what covers columns, in order, and how it ends.
#![tactic(auto)]

pub mod placing;
pub mod records;
pub mod refusals;
pub mod walk;
pub mod width;

use format_items::FormatRefusal;
use format_words::packed::Packed;
use settings::Settings;

// A sheet refused: rows of the rules' 'Checks by place'.
#[derive(Clone, Copy, PartialEq, Eq, Debug)]
pub enum Refusal {
    RecordWidth,
    Format(FormatRefusal),
    Element { place: usize },
    TextArea,
    NoRecord,
    NextRecord { place: usize },
    NoField { place: usize },
    Kind { place: usize },
    Column { place: usize },
    TooLarge { place: usize },
    FieldText { place: usize },
}

// The widest record.
pub const WIDEST_RECORD: usize = 255;

// Where the walk stands: the record, from 0; the column, from 1; the elements taken; and the settings, which hold until an item sets
// others.
#[derive(Clone, Copy, PartialEq, Eq, Debug)]
pub struct State {
    pub row: usize,
    pub column: usize,
    pub taken: usize,
    pub settings: Settings,
}

// Columns covered: where the first one stands in the records, the word of the item, and the settings under which it was met. (A alone
// is kept as Aw, with the width of its text; so the word has the number of columns.)
#[derive(Clone, Copy, PartialEq, Eq, Debug)]
pub struct Cover {
    pub at: usize,
    pub word: Packed,
    pub settings: Settings,
}

impl Cover {
    // What an array of them holds before it is filled.
    pub const ZERO: Cover = Cover {
        at: 0,
        word: Packed::ZERO,
        settings: Settings::START,
    };
}

// What an accepted writing or reading counts: the records reached and the starred fields, 0 in reading.
#[derive(Clone, Copy, PartialEq, Eq, Debug)]
pub struct Counts {
    pub records: usize,
    pub starred: usize,
}
