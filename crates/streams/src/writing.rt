// Writing all the bytes of a buffer.
ghost use Rattle.std.specs.Prelude.{OnOk, OnErr};
ghost use Rattle.std.specs.Io.KnownBytes.{Appends, WriteAppends};
ghost use Rattle.std.specs.Io.{WritesAtMost};
ghost use Rattle.streams.specs.Beginnings.{AppendsBeginning};

use crate::RETRIES;
use std::io;
use std::io::{ErrorKind, Write};

// One write; where a signal interrupts it, the next one that is not interrupted, or the last one that is tried.
fn write_part<W: Write>(writer: &mut W, part: &[u8]) -> io::Result<usize>
    ensures bound { WritesAtMost result part.now }
    ensures bytes { WriteAppends (W.contents writer.old) (W.contents writer.new) result part.now }
{
    for _ in 0..RETRIES {
        match writer.write(part) {
            Err(why) if why.kind() == ErrorKind::Interrupted => {}
            answer => return answer,
        }
    }
    writer.write(part)
}

// Writes all the bytes; where a write fails, a beginning of them was written. (std's `write_all` does not say so.)
pub fn write_full<W: Write>(writer: &mut W, bytes: &[u8]) -> io::Result<()>
    ensures all { OnOk result (Appends (W.contents writer.old) (W.contents writer.new) bytes.now) }
    ensures begun { OnErr result (AppendsBeginning (W.contents writer.old) (W.contents writer.new) bytes.now) }
{
    let mut done: usize = 0;
    while done < bytes.len() {
        let n = write_part(writer, &bytes[done..])?;
        if n == 0 {
            return Err(ErrorKind::WriteZero.into());
        }
        done += n;
    }
    Ok(())
}

#[cfg(test)]
mod tests {
    use super::*;

    // So many writes are interrupted first; then as many take up to 4 bytes each, and those after them none, or fail.
    #[derive(Drop)]
    struct Output {
        interrupted: usize,
        answered: usize,
        fails: bool,
    }

    impl Write for Output {
        fn write(&mut self, buf: &[u8]) -> io::Result<usize> {
            if self.interrupted > 0 {
                self.interrupted -= 1;
                return Err(ErrorKind::Interrupted.into());
            }
            if self.answered == 0 {
                return if self.fails {
                    Err(ErrorKind::StorageFull.into())
                } else {
                    Ok(0)
                };
            }
            self.answered -= 1;
            Ok(buf.len().min(4))
        }

        fn flush(&mut self) -> io::Result<()> {
            Ok(())
        }
    }

    // Whether 9 bytes are written; or why not.
    fn write_of(interrupted: usize, answered: usize, fails: bool) -> Result<(), ErrorKind> {
        let mut output = Output {
            interrupted,
            answered,
            fails,
        };
        write_full(&mut output, b"I 1\nI 23\n").map_err(|why| why.kind())
    }

    #[test]
    fn an_interrupted_write_is_tried_again(rt: HostRuntime) {
        assert_eq!(rt; write_of(0, 3, true), Ok(()));
        assert_eq!(rt; write_of(RETRIES, 3, true), Ok(()));
        assert_eq!(rt; write_of(RETRIES + 1, 3, true), Err(ErrorKind::Interrupted));
    }

    #[test]
    fn a_failed_write_is_told(rt: HostRuntime) {
        assert_eq!(rt; write_of(0, 0, true), Err(ErrorKind::StorageFull));
        assert_eq!(rt; write_of(1, 2, true), Err(ErrorKind::StorageFull));
        assert_eq!(rt; write_of(0, 2, false), Err(ErrorKind::WriteZero));
    }
}
