// The integer field. (One reader for it and the decimal field would take a flag that forbids the point.)
ghost use Rattle.std.specs.Prelude.{◌≡◌};
ghost use Rattle.field_written.specs.Numeral.{I};
ghost use Rattle.field_read.specs.Read.{unblanked, read_digits, read_field};

use crate::Number;
use crate::answer::number_of;
use crate::digits::read_run;
use crate::leading::read_front;
use field_written::Sign;
use field_written::signed::Signed;

// The digits of an integer, after its sign.
fn read_whole(part: &[u8], sign: Sign) -> Option<Number>
    ensures { result ≡ read_digits I sign (unblanked part.now) }
{
    let whole = read_run(part, 0)?;
    if !whole.rest.is_empty() {
        return None;
    }
    let n = Signed {
        sign,
        magnitude: whole.value,
    };
    number_of(whole.count, n, 0)
}

// A field read under Iw.
pub fn read_integer(part: &[u8]) -> Option<Number>
    ensures { result ≡ read_field I part.now }
{
    match read_front(part) {
        None => Some(Number {
            units: 0,
            places: 0,
        }),
        Some((sign, rest)) => read_whole(rest, sign),
    }
}
