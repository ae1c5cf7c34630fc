// The element lines of a case.
use crate::lines::data_of;
use crate::numbers::{number, numbers, signed, unsigned};
use list_elements::{Decimal, Element, List, Text, Value};

// The value of an element line: `D units places`, `L T` or `L F`, `A start len`; where it begins with no other letter, an
// integer.
fn value_of(line: &[u8]) -> Value {
    let data = data_of(line);
    match line.first() {
        Some(b'D') => {
            let [_, places] = numbers::<2>(unsigned(data));
            Value::Decimal(Decimal {
                units: signed(data),
                places,
            })
        }
        Some(b'L') => Value::Logical(data.starts_with(b"T")),
        Some(b'A') => {
            let [start, len] = numbers::<2>(data);
            Value::Text(Text { start, len })
        }
        _ => Value::Integer(signed(data)),
    }
}

// Adds a line to a list: an element, or `N` and the count. Past the 64th element only the count goes up.
pub(crate) fn add_line(list: &mut List, line: &[u8]) {
    if line.starts_with(b"N") {
        list.count = number(data_of(line));
        return;
    }
    let at = list.count;
    if let Some(element) = list.elements.get_mut(at) {
        let value = value_of(line);
        *element = Element { value };
    }
    list.count = at.saturating_add(1);
}
