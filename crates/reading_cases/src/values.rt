// The values of a list.
ghost use Rattle.std.specs.Prelude.{Some};
ghost use Rattle.reading_cases.specs.Shown.{shown};

use list_elements::{Decimal, List, Text, Value};
use std::{fmt, io};

// A value as it is printed.
#[derive(Clone, Copy, PartialEq, Eq, Debug)]
struct Shown(Value);

impl fmt::Display for Shown {
    ghost output = { λ s. Some (shown s.0) };

    fn fmt<W: fmt::Write>(&self, f: &mut fmt::Formatter<W>) -> fmt::Result {
        match self.0 {
            Value::Integer(n) => write!(f, "I {n}"),
            Value::Decimal(Decimal { units, places }) => write!(f, "D {units} {places}"),
            Value::Logical(true) => write!(f, "L T"),
            Value::Logical(false) => write!(f, "L F"),
            Value::Text(Text { start, len }) => write!(f, "A {start} {len}"),
        }
    }
}

// The values before the count.
pub fn show_values(rt: &impl Print, list: &List) -> io::Result<()> {
    for element in list.elements.iter().take(list.count) {
        let value = Shown(element.value);
        print!(rt; " {value}")?;
    }
    Ok(())
}

// Whether the elements past the count are all integer 0; not for a count over 64.
pub fn zeros_follow(list: &List) -> bool {
    match list.elements.get(list.count..) {
        Some(rest) => rest
            .iter()
            .all(|element| matches!(element.value, Value::Integer(0))),
        None => false,
    }
}
