// Numbers of a format.
ghost use Rattle.std.specs.Prelude.{◌≤◌, length};
ghost use Rattle.format_read.specs.Steps.{NumberFound};

use crate::Number;

// The digits from `at` on, three at most; their value and their end come of one pass. (The offset is a plain number: see singles.)
pub fn read_number(text: &[u8], at: usize) -> Number
    requires { at ≤ length text.now }
    ensures { NumberFound text.now at result.value result.next }
{
    let end = text.len().min(at + 3);
    let mut value: u16 = 0;
    let mut next = at;
    for &b in &text[at..end] {
        if !b.is_ascii_digit() {
            break;
        }
        value = value * 10 + u16::from(b - b'0');
        next += 1;
    }
    Number {
        value: (at < next).then_some(value),
        next,
    }
}
