// For tests only: the functions of the crate test_calls, exported to C. A slice is passed as a pointer and a length.
#![tactic(auto)]

use sheet_text::{OUTPUT, RECORD_BUFFER};
use test_calls::{calls, texts};

// `test_calls::calls::test_write`.
#[unsafe(no_mangle)]
pub extern "C" fn test_write(
    width: usize,
    format: &[u8],
    shapes: &[usize],
    numbers: &[i64],
    count: usize,
    area: &[u8],
    buffer: &mut [u8],
    answer: &mut [usize],
) {
    calls::test_write(width, format, shapes, numbers, count, area, buffer, answer)
}

// `test_calls::calls::test_read`.
#[unsafe(no_mangle)]
pub extern "C" fn test_read(
    width: usize,
    format: &[u8],
    shapes: &[usize],
    numbers: &[i64],
    count: usize,
    area: &mut [u8],
    records: &[u8],
    given_shapes: &mut [usize],
    given_numbers: &mut [i64],
    answer: &mut [usize],
) {
    calls::test_read(
        width,
        format,
        shapes,
        numbers,
        count,
        area,
        records,
        given_shapes,
        given_numbers,
        answer,
    )
}

// `test_calls::calls::test_check`.
#[unsafe(no_mangle)]
pub extern "C" fn test_check(format: &[u8], answer: &mut [usize]) {
    calls::test_check(format, answer)
}

// `test_calls::texts::test_list_text`.
#[unsafe(no_mangle)]
pub extern "C" fn test_list_text(
    text: &[u8],
    shapes: &mut [usize],
    numbers: &mut [i64],
    answer: &mut [usize],
) {
    texts::test_list_text(text, shapes, numbers, answer)
}

// `test_calls::texts::test_sheet`; both buffers are passed as pointers alone.
#[unsafe(no_mangle)]
pub extern "C" fn test_sheet(
    input: &[u8],
    records: &mut [u8; RECORD_BUFFER],
    output: &mut [u8; OUTPUT],
) -> usize {
    texts::test_sheet(input, records, output)
}

// The bytes of the record buffer and of the output that `test_sheet` takes.
#[unsafe(no_mangle)]
pub extern "C" fn test_record_buffer() -> usize {
    RECORD_BUFFER
}

#[unsafe(no_mangle)]
pub extern "C" fn test_output() -> usize {
    OUTPUT
}
