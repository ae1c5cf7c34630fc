// List texts and the program's sheets for C.
use crate::answers::check_numbers;
use crate::lists::put_list;
use crate::numbers::put;
use list_elements::List;
use list_text::read::read_list;
use sheet_text::sheet::sheet;
use sheet_text::{OUTPUT, RECORD_BUFFER};

// Reads a list text; all slots of the list given go into `shapes` and `numbers`, and number, place and the list's count into
// `answer`.
pub fn test_list_text(
    text: &[u8],
    shapes: &mut [usize],
    numbers: &mut [i64],
    answer: &mut [usize],
) {
    let read = read_list(text);
    let none = List::empty();
    let list = read.as_ref().unwrap_or(&none);
    put_list(list, shapes, numbers);
    let [number, place] = check_numbers(read);
    put(&[number, place, list.count], answer);
}

// The program's output for an input.
pub fn test_sheet(
    input: &[u8],
    records: &mut [u8; RECORD_BUFFER],
    output: &mut [u8; OUTPUT],
) -> usize {
    sheet(input, records, output)
}
