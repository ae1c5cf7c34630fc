// Literals.
ghost use Rattle.std.specs.Prelude.{◌≤◌, length};
ghost use Rattle.format_items.specs.Refusals.{longest_format};
ghost use Rattle.format_read.specs.Steps.{literal_found};

use crate::{Literal, Ungrammatical};
use buffer::characters::is_printable;

// The literal whose opening mark m stands before `at`; its characters, marks undoubled, go to `chars` from c on. (The offset is a
// plain number: see singles.)
pub fn read_literal(
    text: &[u8],
    at: usize,
    m: u8,
    chars: &mut [u8],
    c: usize,
) -> Result<Literal, Ungrammatical>
    requires { (at ≤ length text.now) × (c ≤ at) × (length text.now ≤ length chars.old) × (length text.now ≤ longest_format) }
    ensures { literal_found text.now at m chars.old c chars.new result }
{
    let mut p = at;
    let mut n = c;
    // A `while`, since a doubled mark takes two bytes.
    while p < text.len() {
        let b = text[p];
        if b == m {
            if text.len() <= p + 1 {
                return Err(Ungrammatical { place: p + 1 });
            }
            if text[p + 1] != m {
                if n == c {
                    return Err(Ungrammatical { place: p + 1 });
                }
                return Ok(Literal {
                    next: p + 1,
                    end: n,
                });
            }
            chars[n] = b;
            n += 1;
            p += 2;
        } else {
            if !is_printable(b) {
                return Err(Ungrammatical { place: p });
            }
            chars[n] = b;
            n += 1;
            p += 1;
        }
    }
    Err(Ungrammatical { place: p })
}
