// Blanks in front of what a field shows.
ghost use Rattle.std.specs.Prelude.{◌≡◌, length, replicate};
ghost use Rattle.buffer.specs.Characters.{blank};

// Fills the part with blanks. (Mostly they are few: these are stored by themselves, where `fill` would be a call.)
#[inline(always)]
pub fn fill_blanks(part: &mut [u8])
    ensures { part.new ≡ replicate (length part.old) blank }
{
    match part.len() {
        0 => {}
        1 => part.copy_from_slice(b" "),
        2 => part.copy_from_slice(b"  "),
        3 => part.copy_from_slice(b"   "),
        4 => part.copy_from_slice(b"    "),
        _ => part.fill(b' '),
    }
}
