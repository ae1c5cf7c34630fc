// Digits put into a buffer, from the units on.
ghost use Rattle.std.specs.Prelude.{◌≡◌, ℕ, ◌/◌, ◌%◌, ◌^◌, length};
ghost use Rattle.number.specs.Digits.{digits_of};

// An unsigned number that is taken apart by tens.
trait Tens: Copy {
    ghost value: { Self → ℕ };

    // The number without its last digit, and that digit.
    fn split_last(self) -> (Self, u8)
        ensures front { value result.0 ≡ value self / 10 }
        ensures last { result.1 ≡ value self % 10 };
}

// (Alike for both types, since an impl may not be written by a macro of this repository. The digit is cast, which the proof
// covers: `try_from` would answer a `Result` whose error never comes.)
impl Tens for u32 {
    ghost value = { λ n. n };

    fn split_last(self) -> (u32, u8) {
        (self / 10, (self % 10) as u8)
    }
}

impl Tens for u64 {
    ghost value = { λ n. n };

    fn split_last(self) -> (u64, u8) {
        (self / 10, (self % 10) as u8)
    }
}

// The last digits of m, as many as the part has bytes; answers the number that the digits before them make. (By index: of
// the elements behind `iter_mut().rev()` a proof would know nothing afterwards.)
fn put<N: Tens>(part: &mut [u8], m: N) -> N
    ensures digits { part.new ≡ digits_of (length part.old) (N.value m) }
    ensures before { N.value result ≡ N.value m / 10 ^ length part.old }
{
    let mut rest = m;
    for i in (0..part.len()).rev() {
        let (front, digit) = rest.split_last();
        part[i] = b'0' + digit;
        rest = front;
    }
    rest
}

// The same of 64 bits; divisions of 32 bits are cheaper.
pub fn put_digits(part: &mut [u8], m: u64) -> u64
    ensures digits { part.new ≡ digits_of (length part.old) m }
    ensures before { result ≡ m / 10 ^ length part.old }
{
    match u32::try_from(m) {
        Ok(narrow) => u64::from(put(part, narrow)),
        Err(_) => put(part, m),
    }
}
