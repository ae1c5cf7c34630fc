// The field of an element.
ghost use Rattle.std.specs.Prelude.{◌≡◌};
ghost use Rattle.list_elements.specs.Elements.{kind_of};
ghost use Rattle.read_passes.specs.Passes.{found_in};

use buffer::characters::all_printable;
use field_read::decimal::read_decimal;
use field_read::integer::read_integer;
use field_read::logical::read_logical;
use list_elements::{Decimal, Text, Value};

// What the part of the records from `at` on holds, for an element of the kind wanted, under a field with so many places. A text is
// not copied yet: where it stands is kept.
#[inline(always)]
pub fn find(wanted: Value, places: usize, part: &[u8], at: usize) -> Option<Value>
    ensures { result ≡ found_in (kind_of wanted) places part.now at }
{
    match wanted {
        Value::Integer(_) => Some(Value::Integer(read_integer(part)?.units)),
        Value::Decimal(_) => {
            let number = read_decimal(part, places)?;
            Some(Value::Decimal(Decimal {
                units: number.units,
                places: number.places,
            }))
        }
        Value::Logical(_) => Some(Value::Logical(read_logical(part)?)),
        Value::Text(_) if all_printable(part) => Some(Value::Text(Text {
            start: at,
            len: part.len(),
        })),
        Value::Text(_) => None,
    }
}
