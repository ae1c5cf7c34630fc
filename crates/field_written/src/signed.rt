// A sign and a magnitude: what a numeral shows.
ghost use Rattle.std.specs.Prelude.{◌≤◌};
ghost use Rattle.number.specs.Limits.{largest};

use crate::Sign;
use number::digits::digit_count;
use number::sign::with_sign;

#[derive(Clone, Copy, PartialEq, Eq, Debug)]
pub struct Signed {
    pub sign: Sign,
    pub magnitude: u64,
    ghost small: { magnitude ≤ largest },
}

// The columns that its numeral takes at least. (One function for each descriptor: what they share is a sum.)
impl Signed {
    ghost use Rattle.std.specs.Prelude.{◌≡◌, ◌<◌};
    ghost use Rattle.number.specs.Limits.{most_places};
    ghost use Rattle.field_written.specs.Numeral.{I, F};
    ghost use Rattle.field_written.specs.Written.{fewest_columns};

    pub fn integer_columns(self) -> usize
        ensures count { result ≡ fewest_columns I self.sign self.magnitude }
        ensures few { result < 20 }
    {
        self.sign.width() + digit_count(self.magnitude)
    }

    // The zero before the point is left out where digits follow.
    pub fn decimal_columns(self, d: usize) -> usize
        requires { d ≤ most_places }
        ensures count { result ≡ fewest_columns (F d) self.sign self.magnitude }
        ensures few { result < 21 }
    {
        self.sign.width() + 1 + digit_count(self.magnitude).max(d)
    }
}

impl From<Signed> for i64 {
    ghost use Rattle.std.specs.Prelude.{◌≡◌};
    ghost use Rattle.field_written.specs.Numeral.{signed};

    ghost from_gives = { λ n units. units ≡ signed n.sign n.magnitude };

    // The magnitude, negated after a minus.
    fn from(n: Signed) -> i64 {
        match n.sign {
            Sign::None | Sign::Plus => with_sign(false, n.magnitude),
            Sign::Minus => with_sign(true, n.magnitude),
        }
    }
}
