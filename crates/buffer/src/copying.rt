// Bytes copied.
ghost use Rattle.std.specs.Prelude.{◌≡◌, length};

// The bytes, laid over the whole part. (By index: of the elements behind `iter_mut` a proof would know nothing afterwards. The library's
// `copy_from_slice` calls `memmove` where the compiler does not know the length, and an archive for C would need that besides `memcpy`.)
#[inline(always)]
pub fn copy(part: &mut [u8], bytes: &[u8])
    requires { length part.old ≡ length bytes.now }
    ensures { part.new ≡ bytes.now }
{
    for i in 0..part.len() {
        part[i] = bytes[i];
    }
}
