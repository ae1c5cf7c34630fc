// Reading up to the end of a buffer or of the input.
ghost use Rattle.std.specs.Prelude.{◌≡◌, ◌≤◌, length, take, IfOk, IfSome};
ghost use Rattle.std.specs.Io.KnownBytes.{Consumes, ReadConsumes};
ghost use Rattle.std.specs.Io.{ReadsAtMost};

use crate::RETRIES;
use std::io;
use std::io::{ErrorKind, Read};

// One read; where a signal interrupts it, the next one that is not interrupted, or the last one that is tried.
fn read_part<R: Read>(reader: &mut R, part: &mut [u8]) -> io::Result<usize>
    ensures bound { ReadsAtMost result part.new }
    ensures bytes { ReadConsumes (R.remaining reader.old) (R.remaining reader.new) result part.new }
{
    for _ in 0..RETRIES {
        match reader.read(part) {
            Err(why) if why.kind() == ErrorKind::Interrupted => {}
            answer => return answer,
        }
    }
    reader.read(part)
}

// Reads until the buffer is full or the input ends; answers how many bytes stand from the buffer's front on. These are what the
// reader gave, and the input's first ones, as many as the buffer holds. What stands behind them is left to the reader, and the
// whole buffer where a read fails.
pub fn read_full<R: Read>(reader: &mut R, buffer: &mut [u8]) -> io::Result<usize>
    ensures within { IfOk result (λ n. n ≤ length buffer.new) }
    ensures given { IfOk result (λ n. Consumes (R.remaining reader.old) (R.remaining reader.new) (take n buffer.new)) }
    ensures first { IfOk result (λ n. IfSome (R.remaining reader.old) (λ input. take n buffer.new ≡ take (length buffer.new) input)) }
{
    let mut done: usize = 0;
    while done < buffer.len() {
        let n = read_part(reader, &mut buffer[done..])?;
        if n == 0 {
            return Ok(done);
        }
        done += n;
    }
    Ok(done)
}

#[cfg(test)]
mod tests {
    use super::*;

    // So many reads are interrupted first; then as many give up to 4 bytes each, or none at the end. The next one fails, and those after
    // it give none.
    #[derive(Drop)]
    struct Input<'a> {
        interrupted: usize,
        answered: usize,
        bytes: &'a [u8],
    }

    impl Read for Input<'_> {
        fn read(&mut self, buf: &mut [u8]) -> io::Result<usize> {
            if self.interrupted > 0 {
                self.interrupted -= 1;
                return Err(ErrorKind::Interrupted.into());
            }
            if self.answered == 0 {
                self.answered = 1000;
                self.bytes = &[];
                return Err(ErrorKind::ConnectionReset.into());
            }
            self.answered -= 1;
            let most = buf.len().min(4);
            self.bytes.read(&mut buf[..most])
        }
    }

    // How many of 9 bytes are read; or why none are.
    fn read_of(interrupted: usize, answered: usize) -> Result<usize, ErrorKind> {
        let mut input = Input {
            interrupted,
            answered,
            bytes: b"I 1\nI 23\n",
        };
        let mut buffer = [0u8; 20];
        read_full(&mut input, &mut buffer).map_err(|why| why.kind())
    }

    #[test]
    fn an_interrupted_read_is_tried_again(rt: HostRuntime) {
        assert_eq!(rt; read_of(0, 10), Ok(9));
        assert_eq!(rt; read_of(1, 10), Ok(9));
        assert_eq!(rt; read_of(RETRIES, 10), Ok(9));
        assert_eq!(rt; read_of(RETRIES + 1, 10), Err(ErrorKind::Interrupted));
    }

    #[test]
    fn a_failed_read_is_no_end(rt: HostRuntime) {
        assert_eq!(rt; read_of(0, 0), Err(ErrorKind::ConnectionReset));
        assert_eq!(rt; read_of(3, 1), Err(ErrorKind::ConnectionReset));
        assert_eq!(rt; read_of(0, 3), Err(ErrorKind::ConnectionReset));
        assert_eq!(rt; read_of(0, 4), Ok(9));
    }
}
