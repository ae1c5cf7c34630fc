// Sheets written and read.
use list_elements::{Decimal, Element, List, Text, Value};
use sheet_read::SheetRead;
use sheet_read::read::read;
use sheet_text::writing::write_list_text;
use sheet_walk::{Counts, Refusal};
use sheet_write::write::write;

pub const WIDTH: usize = 20;

const FORMAT: &[u8] = b"(I4,2X,F6.2,1X,L1,1X,A3)";

// For each of two dimmers its number, its trim, whether it is in use, and where its name stands in the text area.
fn dimmers() -> List {
    let values = [
        Value::Integer(7),
        Value::Decimal(Decimal {
            units: -1255,
            places: 3,
        }),
        Value::Logical(true),
        Value::Text(Text { start: 0, len: 3 }),
        Value::Integer(12),
        Value::Decimal(Decimal {
            units: 40,
            places: 0,
        }),
        Value::Logical(false),
        Value::Text(Text { start: 3, len: 3 }),
    ];
    let mut list = List::empty();
    list.count = values.len();
    for (place, value) in list.elements.iter_mut().zip(values) {
        *place = Element { value };
    }
    list
}

// Two records: "   7   -1.26 T FOH  " and "  12   40.00 F HSL  ".
pub fn write_dimmers(buffer: &mut [u8]) -> Result<Counts, Refusal> {
    write(WIDTH, FORMAT, dimmers(), b"FOHHSL", buffer)
}

// The values of such records. The list says which kinds are wanted, and how long the texts are; these are put into `names`, one after
// another.
pub fn read_back(records: &[u8], names: &mut [u8]) -> Result<SheetRead, Refusal> {
    read(WIDTH, FORMAT, dimmers(), names, records)
}

// One record, from a list text: "   7   -1.26 T FOH  ".
pub fn write_text(buffer: &mut [u8]) -> Result<Counts, Refusal> {
    write_list_text(WIDTH, FORMAT, b"I 7\nD -1255 3\nL T\nA FOH\n", buffer)
}
