// The numbers of a line.
ghost use Rattle.std.specs.Prelude.{◌≡◌};
ghost use Rattle.list_text.specs.Steps.{signed_read, number_read};

use crate::digits::read_digits;
use number::MOST_DIGITS;
use number::sign::with_sign;

// The number of these digits, negated or not.
fn read_signed(negated: bool, digits: &[u8]) -> Option<i64>
    ensures { result ≡ signed_read negated digits.now }
{
    Some(with_sign(negated, read_digits(digits, MOST_DIGITS)?))
}

// The number that the whole text spells.
pub fn read_number(s: &[u8]) -> Option<i64>
    ensures { result ≡ number_read s.now }
{
    let (&first, rest) = s.split_first()?;
    if first == b'-' {
        read_signed(true, rest)
    } else {
        read_signed(false, s)
    }
}
