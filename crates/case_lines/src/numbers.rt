// The numbers of a line. The lines are the tests' own: one in which a number is missing says 0, and needs no refusal.

// The number that a field begins with, 0 where it begins with no digit; one past the largest counts as the largest.
pub(crate) fn number(field: &[u8]) -> usize {
    // A cast, as std has no `From` from u32 to usize; the proof has the digit below 10.
    field
        .iter()
        .map_while(|byte| char::from(*byte).to_digit(10))
        .fold(0, |n: usize, digit| {
            n.saturating_mul(10).saturating_add(digit as usize)
        })
}

// A field without the minus that it begins with, if it does.
pub(crate) fn unsigned(field: &[u8]) -> &[u8] {
    field.strip_prefix(b"-").unwrap_or(field)
}

// The number that a field begins with, for i64: a minus before the digits or none.
pub(crate) fn signed(field: &[u8]) -> i64 {
    match field.strip_prefix(b"-") {
        Some(digits) => i64::try_from(number(digits)).map_or(i64::MIN, |n| -n),
        None => i64::try_from(number(field)).unwrap_or(i64::MAX),
    }
}

// A line's first N numbers, with one byte that is no digit between two; 0 where there are fewer.
pub fn numbers<const N: usize>(line: &[u8]) -> [usize; N] {
    let mut numbers = [0; N];
    let fields = line.split(|byte| !byte.is_ascii_digit());
    for (to, field) in numbers.iter_mut().zip(fields) {
        *to = number(field);
    }
    numbers
}
