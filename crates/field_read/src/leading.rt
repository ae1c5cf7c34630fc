// The blanks and the sign in front of the digits.
ghost use Rattle.std.specs.Prelude.{◌≡◌};
ghost use Rattle.field_read.specs.LogicalRead.{after_blanks};
ghost use Rattle.field_read.specs.Steps.{FrontIs};

use field_written::Sign;

// What stands after the blanks in front.
pub fn skip_blanks(part: &[u8]) -> &[u8]
    ensures { result.now ≡ after_blanks part.now }
{
    let mut rest = part;
    while let [b' ', after @ ..] = rest {
        rest = after;
    }
    rest
}

// The sign in front, and what stands after it; nothing where all is blank.
pub fn read_front(part: &[u8]) -> Option<(Sign, &[u8])>
    ensures { FrontIs part.now result }
{
    match skip_blanks(part) {
        [] => None,
        [b'+', rest @ ..] => Some((Sign::Plus, rest)),
        [b'-', rest @ ..] => Some((Sign::Minus, rest)),
        rest => Some((Sign::None, rest)),
    }
}
