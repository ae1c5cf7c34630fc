// A run of digits.
ghost use Rattle.std.specs.Prelude.{◌≤◌};
ghost use Rattle.number.specs.Limits.{largest};
ghost use Rattle.field_read.specs.Steps.{RunIs};

use crate::Run;
use number::LARGEST;

// The digits in front, blanks passed over, after the number v; nothing where they make too large a number.
pub fn read_run(part: &[u8], v: u64) -> Option<Run<'_>>
    requires { v ≤ largest }
    ensures { RunIs part.now v result }
{
    let mut value = v;
    let mut count: usize = 0;
    let mut rest = part;
    while let [b, after @ ..] = rest {
        match *b {
            b' ' => {}
            b'0'..=b'9' => {
                value = value * 10 + u64::from(*b - b'0');
                if LARGEST < value {
                    return None;
                }
                count += 1;
            }
            _ => return Some(Run { value, count, rest }),
        }
        rest = after;
    }
    Some(Run { value, count, rest })
}
