// Lent bytes full of marks, so that a changed one shows.
ghost use Rattle.std.specs.Prelude.{◌≡◌, IsTrue, All, ◌↔◌, take};

// What lent bytes are full of before the call.
pub const MARK: u8 = b'#';

// Room for the largest buffer.
pub const MARKS: [u8; 4096] = [MARK; 4096];

// The first `n` of some bytes, or all where there are fewer.
pub fn front(bytes: &mut [u8], n: usize) -> &mut [u8]
    ensures { result.now ≡ take n bytes.old }
{
    let n = n.min(bytes.len());
    &mut bytes[..n]
}

// Whether every byte is the mark.
pub fn is_marked(bytes: &[u8]) -> bool
    ensures { IsTrue result ↔ All (λ byte. byte ≡ MARK) bytes.now }
{
    bytes.iter().all(|byte| *byte == MARK)
}
