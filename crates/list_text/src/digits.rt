// Digits read.
ghost use Rattle.std.specs.Prelude.{◌≡◌, ◌≤◌};
ghost use Rattle.number.specs.Limits.{most_digits};
ghost use Rattle.list_text.specs.Steps.{digits_read};

// The number that the whole text makes, if it is one or more digits, at most `most` of them.
pub fn read_digits(s: &[u8], most: usize) -> Option<u64>
    requires { most ≤ most_digits }
    ensures { result ≡ digits_read most s.now }
{
    if !(1..=most).contains(&s.len()) {
        return None;
    }
    let mut value = 0;
    for &b in s {
        if !b.is_ascii_digit() {
            return None;
        }
        value = value * 10 + u64::from(b - b'0');
    }
    Some(value)
}
