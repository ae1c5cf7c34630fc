// The element of a line; none of a malformed one.
ghost use Rattle.std.specs.Prelude.{◌≡◌, ◌+◌, ◌^◌, ◌<◌, length, unwrap_or};
ghost use Rattle.list_text.specs.ElementLines.{malformed, integer_line, decimal_line, logical_line, element_on};

use crate::numbers::read_number;
use list_elements::{Decimal, Text, Value};

// I and n, after the letter and the blank.
fn integer_line(s: &[u8]) -> Option<Value>
    ensures { unwrap_or result malformed ≡ integer_line s.now }
{
    Some(Value::Integer(read_number(s)?))
}

// D, u and s.
fn decimal_line(s: &[u8]) -> Option<Value>
    ensures { unwrap_or result malformed ≡ decimal_line s.now }
{
    match s {
        [units @ .., b' ', digit] if digit.is_ascii_digit() => Some(Value::Decimal(Decimal {
            units: read_number(units)?,
            places: usize::from(digit - b'0'),
        })),
        _ => None,
    }
}

// L and T or F.
fn logical_line(s: &[u8]) -> Option<Value>
    ensures { unwrap_or result malformed ≡ logical_line s.now }
{
    match s {
        [b'T'] => Some(Value::Logical(true)),
        [b'F'] => Some(Value::Logical(false)),
        _ => None,
    }
}

// The element of a line that starts at this offset.
pub fn element_on(start: usize, line: &[u8]) -> Option<Value>
    requires { start + length line.now < 2 ^ 64 }
    ensures { unwrap_or result malformed ≡ element_on start line.now }
{
    let [letter, b' ', rest @ ..] = line else {
        return None;
    };
    match letter {
        b'I' => integer_line(rest),
        b'D' => decimal_line(rest),
        b'L' => logical_line(rest),
        b'A' => Some(Value::Text(Text {
            start: start + 2,
            len: rest.len(),
        })),
        _ => None,
    }
}
