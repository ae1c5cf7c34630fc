// Fields read: the field between bars, then whether it gives the number that the case names, or is refused.
use crate::Case;
use field_read::Number;
use field_read::decimal::read_decimal;
use field_read::integer::read_integer;
use std::io;

// A field under Iw, and the integer that it gives; `None` where it is refused.
#[derive(Clone, Copy, PartialEq, Eq, Debug)]
pub struct IntegerCase(&'static str, Option<i64>);

// A field under Fw.d, its d, and the number that it gives; `None` where it is refused.
#[derive(Clone, Copy, PartialEq, Eq, Debug)]
pub struct DecimalCase(&'static str, usize, Option<Number>);

// The field, and whether what was read is as wanted.
fn say(
    rt: &impl Print,
    text: &str,
    read: Option<Number>,
    wanted: Option<Number>,
    refused: &str,
) -> io::Result<()> {
    let said = if read != wanted {
        "WRONG"
    } else if wanted.is_some() {
        "as stated"
    } else {
        refused
    };
    println!(rt; "|{text}| {said}")
}

impl Case for IntegerCase {
    fn show(&self, rt: &impl Print) -> io::Result<()> {
        let IntegerCase(text, units) = *self;
        let wanted = units.map(|units| Number { units, places: 0 });
        let read = read_integer(text.as_bytes());
        say(rt, text, read, wanted, "refused 12 under I")
    }
}

impl DecimalCase {
    // A field that gives these units and places.
    fn new(text: &'static str, d: usize, units: i64, places: usize) -> Self {
        DecimalCase(text, d, Some(Number { units, places }))
    }
}

impl Case for DecimalCase {
    fn show(&self, rt: &impl Print) -> io::Result<()> {
        let DecimalCase(text, d, wanted) = *self;
        let read = read_decimal(text.as_bytes(), d);
        say(rt, text, read, wanted, "refused 12 under F")
    }
}

pub fn integers() -> [IntegerCase; 11] {
    [
        IntegerCase("999", Some(999)),
        IntegerCase(" -99", Some(-99)),
        IntegerCase("+7", Some(7)),
        IntegerCase(" 1 2 3 ", Some(123)),
        IntegerCase("- 5", Some(-5)),
        IntegerCase("-0", Some(0)),
        IntegerCase("", Some(0)),
        IntegerCase("    ", Some(0)),
        IntegerCase("999999999999999999", Some(999_999_999_999_999_999)),
        IntegerCase("-999999999999999999", Some(-999_999_999_999_999_999)),
        IntegerCase(
            "0000000000000000000000000000000000000000000000000000000000000042",
            Some(42),
        ),
    ]
}

pub fn decimals() -> [DecimalCase; 10] {
    [
        DecimalCase::new("1234", 2, 1234, 2),
        DecimalCase::new("12.3", 2, 123, 1),
        DecimalCase::new("    ", 2, 0, 2),
        DecimalCase::new("5.", 2, 5, 0),
        DecimalCase::new("-.5", 0, -5, 1),
        DecimalCase::new(" - 1 . 2 5", 0, -125, 2),
        DecimalCase::new(".123456789", 3, 123456789, 9),
        DecimalCase::new("000.000000000", 3, 0, 9),
        DecimalCase::new("-999999999999999999", 9, -999_999_999_999_999_999, 9),
        DecimalCase::new("999999999.999999999", 0, 999_999_999_999_999_999, 9),
    ]
}

pub fn no_integers() -> [IntegerCase; 8] {
    [
        IntegerCase("-", None),
        IntegerCase("+ ", None),
        IntegerCase("12.", None),
        IntegerCase("5-", None),
        IntegerCase("--5", None),
        IntegerCase("1*", None),
        IntegerCase("***", None),
        IntegerCase("1000000000000000000", None),
    ]
}

pub fn no_decimals() -> [DecimalCase; 9] {
    [
        DecimalCase(".", 2, None),
        DecimalCase("-.", 2, None),
        DecimalCase("1.2.3", 2, None),
        DecimalCase("1-", 2, None),
        DecimalCase("1.5E1", 2, None),
        DecimalCase("****", 2, None),
        DecimalCase("0.1000000000", 2, None),
        DecimalCase("1000000000.000000000", 2, None),
        DecimalCase("1000000000000000000", 0, None),
    ]
}
