// The calls that are measured, each once.
use crate::lists::listed;
use format_check::check::check;
use list_elements::List;
use sheet_read::read::read;
use sheet_write::write::write;
use test_calls::slots::Slot;

// No element: no kind has this number.
const NONE: Slot = Slot {
    shape: [usize::MAX; 3],
    number: 0,
};

// Writes a list; how many records it filled, 0 where it is refused.
pub fn bench_write(
    width: usize,
    format: &[u8],
    slots: &[Slot],
    area: &[u8],
    buffer: &mut [u8],
) -> usize {
    write(width, format, listed(slots), area, buffer).map_or(0, |counts| counts.records)
}

// Reads the elements wanted, into a list here; of it the element at this place, or none where it is refused. (One is enough, if it
// is another one at each call, to have the compiler leave nothing out.)
pub fn bench_read(
    width: usize,
    format: &[u8],
    wanted: &[Slot],
    area: &mut [u8],
    records: &[u8],
    place: usize,
) -> Slot {
    let slot = place % List::MOST;
    let given = read(width, format, listed(wanted), area, records);
    given.map_or(NONE, |sheet| sheet.list.elements[slot].value.into())
}

// Checks a format; whether it is accepted.
pub fn bench_check(format: &[u8]) -> bool {
    check(format).is_ok()
}
