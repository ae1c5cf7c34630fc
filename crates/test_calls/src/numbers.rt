// Numbers in slices of any length.

// Puts numbers from the front of a slice on, as many as fit.
pub fn put(numbers: &[usize], out: &mut [usize]) {
    for (to, number) in out.iter_mut().zip(numbers) {
        *to = *number;
    }
}
