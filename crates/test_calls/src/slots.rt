// A value as four numbers, by which C passes it.
use list_elements::{Decimal, Text, Value};

// The kinds as numbers: the C interface passes no enum. Any other number is an integer too.
const INTEGER: usize = 0;

const DECIMAL: usize = 1;

const LOGICAL: usize = 2;

const TEXT: usize = 3;

// What stands in `shapes` and in `numbers` for one slot; `bench_calls` passes it whole.
#[repr(C)]
#[derive(Clone, Copy, PartialEq, Eq, Debug)]
pub struct Slot {
    // The kind; the places or a text's start; a text's length.
    pub shape: [usize; 3],
    // The integer, the units, or 0 or 1 for a logical.
    pub number: i64,
}

impl From<Slot> for Value {
    fn from(slot: Slot) -> Self {
        let [kind, first, len] = slot.shape;
        match kind {
            DECIMAL => Value::Decimal(Decimal {
                units: slot.number,
                places: first,
            }),
            LOGICAL => Value::Logical(slot.number != 0),
            TEXT => Value::Text(Text { start: first, len }),
            _ => Value::Integer(slot.number),
        }
    }
}

impl From<Value> for Slot {
    fn from(value: Value) -> Self {
        let (shape, number) = match value {
            Value::Integer(n) => ([INTEGER, 0, 0], n),
            Value::Decimal(decimal) => ([DECIMAL, decimal.places, 0], decimal.units),
            Value::Logical(truth) => ([LOGICAL, 0, 0], i64::from(truth)),
            Value::Text(text) => ([TEXT, text.start, text.len], 0),
        };
        Slot { shape, number }
    }
}
