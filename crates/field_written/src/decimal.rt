// The decimal field. (It has a point, digits after it and a zero that may be left out, which the integer field has not: one
// function for both would ask at each step which of them it is.)
ghost use Rattle.std.specs.Prelude.{◌≡◌, cond, ◌+◌, ◌/◌, ◌≤◌, ◌^◌, ltb, length, nat_abs};
ghost use Rattle.number.specs.Limits.{largest, most_places};
ghost use Rattle.number.specs.Digits.{digits_of};
ghost use Rattle.field_written.specs.Numeral.{F, sign_bytes, layout};
ghost use Rattle.field_written.specs.Written.{fewest_columns, field_text, put_decimal, decimal_part};

use crate::Sign;
use crate::blanks::fill_blanks;
use crate::signed::Signed;
use number::TooLarge;
use number::put::put_digits;
use number::rounding::round;
use number::sign::stays_negative;
use settings::SignSetting;

// The sign of n, k digits, a point and d digits, from the last one on.
#[inline(always)]
fn put_numeral(part: &mut [u8], n: Signed, k: usize, d: usize)
    requires { length part.old ≡ length (sign_bytes n.sign) + k + 1 + d }
    ensures { part.new ≡ layout (F d) 0 n.sign (digits_of k (n.magnitude / 10 ^ d)) (digits_of d n.magnitude) }
{
    let (front, rest) = part.split_at_mut(n.sign.width());
    let (whole, rest) = rest.split_at_mut(k);
    let (point, fraction) = rest.split_at_mut(1);
    let before = put_digits(fraction, n.magnitude);
    point[0] = b'.';
    put_digits(whole, before);
    n.sign.put(front);
}

// The digits before the point: where there are none, a zero if a column is free.
#[inline(always)]
fn shown_digits(few: usize, free: usize) -> usize
    ensures { result ≡ cond (ltb 0 few) few (cond (ltb 0 free) 1 0) }
{
    few.max(free.min(1))
}

// The numeral, right justified; it takes `need` columns at least, which are there.
#[inline(always)]
fn put_decimal(part: &mut [u8], need: usize, n: Signed, d: usize)
    requires room { need ≤ length part.old }
    requires needed { need ≡ fewest_columns (F d) n.sign n.magnitude }
    ensures { part.new ≡ field_text (F d) (length part.old) n.sign n.magnitude }
{
    let rest = n.sign.width() + 1 + d;
    let k = shown_digits(need - rest, part.len() - need);
    let free = part.len() - rest - k;
    let (blanks, numeral) = part.split_at_mut(free);
    fill_blanks(blanks);
    put_numeral(numeral, n, k, d);
}

// units / 10^places, rounded to d places, under Fw.d, w the columns of the part, and a setting; whether the field is starred. (Units
// and places: as in `number::rounding`.)
#[inline(always)]
pub fn write_decimal(
    part: &mut [u8],
    d: usize,
    units: i64,
    places: usize,
    setting: SignSetting,
) -> Result<bool, TooLarge>
    requires wanted { d ≤ most_places }
    requires magnitude { nat_abs units ≤ largest }
    requires given { places ≤ most_places }
    ensures answer { result ≡ put_decimal setting (length part.old) d units places }
    ensures laid { part.new ≡ decimal_part setting part.old d units places }
{
    let negative = units.is_negative();
    let m = units.unsigned_abs();
    let v = round(m, places, d)?;
    let sign = Sign::of(setting, stays_negative(negative, v));
    let shown = Signed { sign, magnitude: v };
    let need = shown.decimal_columns(d);
    if part.len() < need {
        part.fill(b'*');
        return Ok(true);
    }
    put_decimal(part, need, shown, d);
    Ok(false)
}
