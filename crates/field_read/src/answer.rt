// The number that is read.
ghost use Rattle.std.specs.Prelude.{◌≡◌, cond, eqb, None};
ghost use Rattle.field_written.specs.Numeral.{signed};
ghost use Rattle.field_read.specs.Read.{number};

use crate::Number;
use field_written::signed::Signed;

// The number n, made by `count` digits; without a digit there is no number.
pub fn number_of(count: usize, n: Signed, places: usize) -> Option<Number>
    ensures { result ≡ cond (eqb count 0) None (number (signed n.sign n.magnitude) places) }
{
    if count == 0 {
        return None;
    }
    Some(Number {
        units: i64::from(n),
        places,
    })
}
