// What covers columns, in writing: the field of an element, or a literal.
ghost use Rattle.std.specs.Prelude.{◌≡◌, List, ℕ, ◌+◌, ◌≤◌, true, length, take, drop};
ghost use Rattle.format_items.specs.Items.{Field};
ghost use Rattle.list_elements.specs.Limits.{within_limits};
ghost use Rattle.write_passes.specs.Placed.{field_characters, field_starred, field_too_large};
ghost use Rattle.write_passes.specs.Passes.{FieldOf, SomeField, SomeSmallField};

use buffer::copying::copy;
use field_written::decimal::write_decimal;
use field_written::integer::write_integer;
use field_written::logical::write_logical;
use field_written::text::write_text;
use list_elements::Value;
use settings::Settings;

// Whether the value is too large for its field, which has so many places: only a decimal can be.
#[inline(always)]
pub fn too_large(places: usize, value: Value) -> bool
    requires good { (area : List ℕ) × (within_limits area value ≡ true) }
    requires field { SomeField value places }
    ensures { (f : Field ℕ) → FieldOf value places f → result ≡ field_too_large f value }
{
    let Value::Decimal(d) = value else {
        return false;
    };
    number::rounding::too_large(d.units, d.places, places)
}

// Puts the field of a value, which is not too large, into its columns, under settings; whether the field is starred. (Inlined, as is
// what it calls, into both copies of `lay_under`.)
#[inline(always)]
pub fn put(part: &mut [u8], places: usize, settings: Settings, value: Value, area: &[u8]) -> bool
    requires good { within_limits area.now value ≡ true }
    requires wide { 1 ≤ length part.old }
    requires field { SomeSmallField value places }
    ensures stars { (f : Field ℕ) → FieldOf value places f → result ≡ field_starred settings f (length part.old) value }
    ensures bytes { (f : Field ℕ) → FieldOf value places f → part.new ≡ field_characters area.now settings f (length part.old) value }
{
    match value {
        Value::Integer(n) => write_integer(part, n, settings.signs),
        Value::Decimal(d) => {
            write_decimal(part, places, d.units, d.places, settings.signs).unwrap()
        }
        Value::Logical(b) => {
            write_logical(part, b);
            false
        }
        Value::Text(t) => {
            write_text(part, &area[t.start..][..t.len]);
            false
        }
    }
}

// Puts the characters of a literal, which begin at `start`, into its columns.
#[inline(always)]
pub fn put_literal(part: &mut [u8], start: usize, chars: &[u8])
    requires { start + length part.old ≤ length chars.now }
    ensures { part.new ≡ take (length part.old) (drop start chars.now) }
{
    copy(part, &chars[start..][..part.len()]);
}
