// The integer field.
ghost use Rattle.std.specs.Prelude.{◌≡◌, ◌≤◌, length, nat_abs};
ghost use Rattle.number.specs.Limits.{largest};
ghost use Rattle.field_written.specs.Numeral.{I};
ghost use Rattle.field_written.specs.Written.{fewest_columns, field_text, field, starred};

use crate::Sign;
use crate::blanks::fill_blanks;
use crate::signed::Signed;
use number::put::put_digits;
use settings::SignSetting;

// The numeral, right justified; it takes `need` columns, which are there.
#[inline(always)]
fn put_integer(part: &mut [u8], need: usize, n: Signed)
    requires room { need ≤ length part.old }
    requires needed { need ≡ fewest_columns I n.sign n.magnitude }
    ensures { part.new ≡ field_text I (length part.old) n.sign n.magnitude }
{
    let free = part.len() - need;
    let (blanks, numeral) = part.split_at_mut(free);
    let (front, digits) = numeral.split_at_mut(n.sign.width());
    fill_blanks(blanks);
    n.sign.put(front);
    put_digits(digits, n.magnitude);
}

// n under Iw, w the columns of the part, and a setting; whether the field is starred.
#[inline(always)]
pub fn write_integer(part: &mut [u8], n: i64, setting: SignSetting) -> bool
    requires { nat_abs n ≤ largest }
    ensures answer { result ≡ starred setting I (length part.old) n }
    ensures laid { part.new ≡ field setting I (length part.old) n }
{
    let sign = Sign::of(setting, n.is_negative());
    let magnitude = n.unsigned_abs();
    let shown = Signed { sign, magnitude };
    let need = shown.integer_columns();
    if part.len() < need {
        part.fill(b'*');
        return true;
    }
    put_integer(part, need, shown);
    false
}
