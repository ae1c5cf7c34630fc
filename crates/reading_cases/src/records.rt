// The records of a case, from a line in which some bytes are given by two hex digits.
ghost use Rattle.std.specs.Prelude.{◌≤◌, ◌<◌, length, IfSome};
ghost use Rattle.std.specs.Iterator.{at_most};

use case_lines::marks::front;

// The number of a hex digit; 0 for any other byte, as the lines are the tests' own and need no refusal. Not by `to_digit`, which
// takes capital letters too.
fn hex_digit(byte: u8) -> u8
    ensures { result ≤ 15 }
{
    match byte {
        b'0'..=b'9' => byte - b'0',
        b'a'..=b'f' => byte - b'a' + 10,
        _ => 0,
    }
}

// The first byte of a line, and the characters after those that stand for it: two backslashes, a backslash and two hex digits,
// or any other character.
fn split_byte(line: &[u8]) -> Option<(u8, &[u8])>
    ensures { IfSome result (λ p. length p.1.now < length line.now) }
{
    match line {
        [] => None,
        [b'\\', b'\\', rest @ ..] => Some((b'\\', rest)),
        [b'\\', high, low, rest @ ..] => Some((hex_digit(*high) * 16 + hex_digit(*low), rest)),
        [byte, rest @ ..] => Some((*byte, rest)),
    }
}

// The bytes of a line, in order.
#[derive(PartialEq, Eq, Debug, Drop)]
struct Bytes<'a>(&'a [u8]);

impl Iterator for Bytes<'_> {
    type Item = u8;

    ghost remaining = { λ b. at_most (length b.0.now) };

    fn next(&mut self) -> Option<u8> {
        let (byte, rest) = split_byte(self.0)?;
        self.0 = rest;
        Some(byte)
    }
}

// The bytes of a line, laid from the front of `space` on, as many as fit.
pub fn bytes_of<'a>(line: &[u8], space: &'a mut [u8]) -> &'a mut [u8] {
    for (to, byte) in space.iter_mut().zip(Bytes(line)) {
        *to = byte;
    }
    front(space, Bytes(line).count())
}
