// The format check: rows 2 to 5 of the rules' 'Checks by place'.
#![tactic(auto)]

pub mod check;

// Why a format is refused, with the number and the place.
pub use format_items::FormatRefusal;
