// The line with the record width.
ghost use Rattle.std.specs.Prelude.{◌≡◌};
ghost use Rattle.sheet_text.specs.Input.{width_on};

use list_text::digits::read_digits;

// The most digits of a width.
const MOST_WIDTH_DIGITS: usize = 3;

// One to three digits; else 0, which is no width. (A cast, as no `From` makes a `usize` of a `u64`; three digits fit.)
pub fn read_width(line: &[u8]) -> usize
    ensures { result ≡ width_on line.now }
{
    read_digits(line, MOST_WIDTH_DIGITS).unwrap_or(0) as usize
}
