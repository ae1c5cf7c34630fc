// The format check.
use format_check::check::check;

// Where a format goes wrong, if it does: "(I5,F8)" at offset 6, since a point must follow F8.
pub fn wrong_at(format: &[u8]) -> Option<usize> {
    check(format).err().map(|refusal| refusal.place())
}
