// For the benchmark only: the functions of the crate bench_calls, exported to C. A slice is passed as a pointer and a length.
#![tactic(auto)]

use bench_calls::calls;
use test_calls::slots::Slot;

// `bench_calls::calls::bench_write`.
#[unsafe(no_mangle)]
pub extern "C" fn bench_write(
    width: usize,
    format: &[u8],
    slots: &[Slot],
    area: &[u8],
    buffer: &mut [u8],
) -> usize {
    calls::bench_write(width, format, slots, area, buffer)
}

// `bench_calls::calls::bench_read`.
#[unsafe(no_mangle)]
pub extern "C" fn bench_read(
    width: usize,
    format: &[u8],
    wanted: &[Slot],
    area: &mut [u8],
    records: &[u8],
    place: usize,
) -> Slot {
    calls::bench_read(width, format, wanted, area, records, place)
}

// `bench_calls::calls::bench_check`.
#[unsafe(no_mangle)]
pub extern "C" fn bench_check(format: &[u8]) -> bool {
    calls::bench_check(format)
}
