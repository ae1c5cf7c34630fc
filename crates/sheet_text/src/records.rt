// The records as lines.
ghost use Rattle.std.specs.Prelude.{◌≡◌, ◌+◌, ◌*◌, ◌≤◌, length};
ghost use Rattle.buffer.specs.Splice.{splice};
ghost use Rattle.sheet_text.specs.Output.{record_lines};

use buffer::copying::copy;

// The first records of this width, each and a line feed. Answers the offset after them. (By index: of what stands behind
// `chunks_mut` a proof would know nothing afterwards.)
pub fn put_records(dst: &mut [u8], width: usize, count: usize, records: &[u8]) -> usize
    requires { (count * width ≤ length records.now) × (count * width + count ≤ length dst.old) }
    ensures { (dst.new ≡ splice dst.old 0 (record_lines width count records.now)) × (result ≡ length (record_lines width count records.now)) × (result ≡ count * width + count) }
{
    for i in 0..count {
        let at = i * (width + 1);
        let from = i * width;
        copy(&mut dst[at..at + width], &records[from..from + width]);
        dst[at + width] = b'\n';
    }
    count * width + count
}
