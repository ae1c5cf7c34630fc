// Writing, reading and the format check for C.
use crate::answers::{answer_numbers, check_numbers};
use crate::lists::{list_from, put_list};
use crate::numbers::put;
use format_check::check::check;
use list_elements::List;
use sheet_read::read::read;
use sheet_write::write::write;

// Writes a list; number (0 accepted), place, records and starred go into `answer`.
pub fn test_write(
    width: usize,
    format: &[u8],
    shapes: &[usize],
    numbers: &[i64],
    count: usize,
    area: &[u8],
    buffer: &mut [u8],
    answer: &mut [usize],
) {
    let list = list_from(shapes, numbers, count);
    let written = write(width, format, list, area, buffer);
    put(&answer_numbers(written), answer);
}

// Reads the elements wanted; all slots of the list given go into `given_shapes` and `given_numbers`, and number, place,
// records, starred and the list's count into `answer`.
pub fn test_read(
    width: usize,
    format: &[u8],
    shapes: &[usize],
    numbers: &[i64],
    count: usize,
    area: &mut [u8],
    records: &[u8],
    given_shapes: &mut [usize],
    given_numbers: &mut [i64],
    answer: &mut [usize],
) {
    let wanted = list_from(shapes, numbers, count);
    let given = read(width, format, wanted, area, records);
    let list = given.map_or(List::empty(), |sheet| sheet.list);
    put_list(&list, given_shapes, given_numbers);
    let counts = given.map(|sheet| sheet.counts);
    let [number, place, records, starred] = answer_numbers(counts);
    put(&[number, place, records, starred, list.count], answer);
}

// Checks a format; number and place go into `answer`.
pub fn test_check(format: &[u8], answer: &mut [usize]) {
    put(&check_numbers(check(format)), answer);
}
