// What is printed.
use crate::sheets::WIDTH;
use list_elements::{Element, List, Value};
use sheet_walk::{Counts, Refusal};
use std::io;
use std::io::Write;

pub fn show_place<W: Write>(out: &mut W, place: Option<usize>) -> io::Result<()> {
    match place {
        Some(place) => writeln!(out, "the format goes wrong at {place}"),
        None => writeln!(out, "the format is accepted"),
    }
}

// Each record and a line feed, and the counts.
pub fn show_records<W: Write>(out: &mut W, buffer: &[u8], counts: Counts) -> io::Result<()> {
    for record in buffer.chunks(WIDTH).take(counts.records) {
        out.write_all(record)?;
        out.write_all(b"\n")?;
    }
    writeln!(out, "records {} starred {}", counts.records, counts.starred)
}

pub fn show_refusal<W: Write>(out: &mut W, refusal: Refusal) -> io::Result<()> {
    writeln!(out, "refused {} {}", refusal.number(), refusal.place())
}

// A line for each element.
pub fn show_list<W: Write>(out: &mut W, list: List, area: &[u8]) -> io::Result<()> {
    for element in list.elements.into_iter().take(list.count) {
        show_element(out, element, area)?;
    }
    Ok(())
}

fn show_element<W: Write>(out: &mut W, element: Element, area: &[u8]) -> io::Result<()> {
    match element.value {
        Value::Integer(n) => writeln!(out, "integer {n}"),
        Value::Decimal(decimal) => {
            writeln!(out, "decimal {} / 10^{}", decimal.units, decimal.places)
        }
        Value::Logical(b) => writeln!(out, "logical {b}"),
        Value::Text(text) => {
            let part = area.get(text.start..).and_then(|rest| rest.get(..text.len));
            out.write_all(b"text ")?;
            out.write_all(part.unwrap_or(&[]))?;
            out.write_all(b"\n")
        }
    }
}
