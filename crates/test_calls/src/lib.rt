// For tests only: the functions by which a test harness in C calls writing, reading, the format check, list text and sheet
// text; the crate test_calls_c exports them. Each is proved safe and ending for slices of any lengths, and promises nothing
// else. A list is passed in 64 slots: three numbers of each in `shapes`, its kind (0 integer, 1 decimal, 2 logical, 3 text),
// the places or a text's start, and a text's length; and one in `numbers`, the integer, the units, or 0 or 1 for a logical.
// Where a slice is too short, what does not fit is left out. Numbers stand for kinds and refusals only here, and a
// list is two slices and a count, for the C interface. No memory is taken from the heap.
#![tactic(auto)]

mod answers;
pub mod calls;
pub mod lists;
mod numbers;
pub mod slots;
pub mod texts;
