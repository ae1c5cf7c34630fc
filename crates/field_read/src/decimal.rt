// The decimal field. (It has a point, and digits after it, which the integer field may not have: one reader for both would
// take a flag that forbids the point.)
ghost use Rattle.std.specs.Prelude.{◌≡◌};
ghost use Rattle.field_written.specs.Numeral.{F};
ghost use Rattle.field_read.specs.Read.{unblanked, read_digits, read_field};

use crate::Number;
use crate::answer::number_of;
use crate::digits::read_run;
use crate::leading::read_front;
use field_written::Sign;
use field_written::signed::Signed;
use number::MOST_PLACES;

// The digits of a decimal, with a point or d places, after its sign.
fn read_units(part: &[u8], sign: Sign, d: usize) -> Option<Number>
    ensures { result ≡ read_digits (F d) sign (unblanked part.now) }
{
    let whole = read_run(part, 0)?;
    let [point, after @ ..] = whole.rest else {
        let n = Signed {
            sign,
            magnitude: whole.value,
        };
        return number_of(whole.count, n, d);
    };
    if *point != b'.' {
        return None;
    }
    let fraction = read_run(after, whole.value)?;
    if !fraction.rest.is_empty() {
        return None;
    }
    let places = fraction.count;
    if MOST_PLACES < places {
        return None;
    }
    let n = Signed {
        sign,
        magnitude: fraction.value,
    };
    number_of(whole.count + places, n, places)
}

// A field read under Fw.d.
pub fn read_decimal(part: &[u8], d: usize) -> Option<Number>
    ensures { result ≡ read_field (F d) part.now }
{
    match read_front(part) {
        None => Some(Number {
            units: 0,
            places: d,
        }),
        Some((sign, rest)) => read_units(rest, sign, d),
    }
}
