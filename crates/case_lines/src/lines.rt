// The lines of a program's input.
ghost use Rattle.std.specs.Prelude.{◌≡◌, ◌≢◌, ◌<◌, ◌≤◌, [], length, drop, IfOk, IfSome, IfNone, vec_items};
ghost use Rattle.std.specs.List.{All};
ghost use Rattle.list_text.specs.Lines.{first_line, after_line};

use list_text::lines::split_line;
use std::alloc::Global;
use std::io;
use std::io::{BufRead, BufReader, Read};

// How many bytes of the input are looked at, at most.
const MOST_INPUT: u64 = 1_048_576;

// All of the standard input that is looked at, in one buffer. It need be no text.
pub fn input_bytes(rt: &(impl Input + AllocGlobal)) -> io::Result<Vec<u8>> {
    let mut bytes = Vec::new(rt.alloc());
    rt.reader().take(MOST_INPUT).read_to_end(&mut bytes)?;
    Ok(bytes)
}

// All lines of the standard input that are looked at, each a vector of its own, without their line feeds. They need be no text.
pub fn input_lines(rt: &(impl Input + AllocGlobal)) -> io::Result<Vec<Vec<u8>>>
    ensures { IfOk result (λ lines. All (λ line. All (λ byte. byte ≢ 10) (vec_items line)) (vec_items lines)) }
{
    let alloc = rt.alloc();
    BufReader::new(alloc, rt.reader().take(MOST_INPUT))?
        .split(alloc, b'\n')
        .try_collect(alloc)
}

// The lines that are left of an input. They lie in it, so that they take no memory of their own.
#[derive(Clone, Copy, PartialEq, Eq, Debug)]
pub struct Lines<'a> {
    pub rest: &'a [u8],
}

impl<'a> Lines<'a> {
    // The next line, without its line feed; none where nothing is left.
    pub fn next_line(&mut self) -> Option<&'a [u8]>
        ensures line { IfSome result (λ line. line.now ≡ first_line self.old.rest.now) }
        ensures none { IfNone result (self.old.rest.now ≡ []) }
        ensures rest { IfSome result (λ line. self.new.rest.now ≡ after_line self.old.rest.now) }
        ensures no_more { length self.new.rest.now ≤ length self.old.rest.now }
        ensures fewer { IfSome result (λ line. length self.new.rest.now < length self.old.rest.now) }
    {
        if self.rest.is_empty() {
            return None;
        }
        let (line, rest) = split_line(self.rest);
        self.rest = rest;
        Some(line)
    }
}

// What stands in a line behind its letter and a blank; nothing in a shorter line.
pub fn data_of(line: &[u8]) -> &[u8]
    ensures { result.now ≡ drop 2 line.now }
{
    line.get(2..).unwrap_or(&[])
}

#[cfg(test)]
mod tests {
    use super::*;
    use std::alloc::Allocator;
    use std::io::ErrorKind;

    // An input of these bytes; then a read gives nothing, and others may give more. Where it is broken, a read behind all bytes fails.
    #[derive(Clone, Copy)]
    struct Given<'a> {
        bytes: &'a [u8],
        more: &'a [u8],
        broken: bool,
    }

    impl<'a> Given<'a> {
        fn new(bytes: &'a [u8]) -> Self {
            Given {
                bytes,
                more: &[],
                broken: false,
            }
        }

        fn broken(bytes: &'a [u8]) -> Self {
            Given {
                bytes,
                more: &[],
                broken: true,
            }
        }
    }

    impl Read for Given<'_> {
        fn read(&mut self, buf: &mut [u8]) -> io::Result<usize> {
            let read = self.fill_buf()?.read(buf)?;
            self.consume(read);
            Ok(read)
        }
    }

    impl BufRead for Given<'_> {
        fn fill_buf(&mut self) -> io::Result<&[u8]> {
            let part = self.bytes;
            if part.is_empty() {
                if self.broken {
                    return Err(ErrorKind::ConnectionReset.into());
                }
                self.bytes = self.more;
                self.more = &[];
            }
            Ok(part)
        }

        fn consume(&mut self, amount: usize) {
            self.bytes = self.bytes.get(amount..).unwrap_or(&[]);
        }
    }

    impl<'a> Input for Given<'a> {
        type Reader = Given<'a>;

        fn read_line<A: Allocator + Clone>(&self, buf: &mut String<A>) -> io::Result<usize> {
            BufRead::read_line(&mut self.reader(), buf)
        }

        fn lines<A: Allocator>(&self, alloc: A) -> io::Lines<Given<'a>, A> {
            BufRead::lines(self.reader(), alloc)
        }

        fn reader(&self) -> Given<'a> {
            *self
        }
    }

    // Whether there are so many lines in vectors, and the same ones in one buffer.
    fn same_lines(rt: &HostRuntime, bytes: &[u8], count: usize) -> io::Result<bool> {
        let input = (Given::new(bytes), rt.alloc());
        let vectors = input_lines(&input)?;
        let buffer = input_bytes(&input)?;
        let mut lines = Lines { rest: &buffer };
        for line in vectors.iter() {
            if lines.next_line() != Some(line.as_slice()) {
                return Ok(false);
            }
        }
        Ok(lines.next_line().is_none() && vectors.len() == count)
    }

    #[test]
    fn vectors_have_the_lines(rt: HostRuntime) -> io::Result<()> {
        let inputs: [(&[u8], usize); 8] = [
            (b"", 0),
            (b"\n", 1),
            (b"\n\n", 2),
            (b"R 4", 1),
            (b"R 4\n", 1),
            (b"R 4\n\nI 7", 3),
            (b"\r\n\0\n\xff\n", 3),
            (b"R 4\nI 7\n.\n", 3),
        ];
        for (bytes, count) in inputs {
            assert!(rt;
                same_lines(&rt, bytes, count)?,
                "{count} lines of {bytes:?}"
            );
        }
        Ok(())
    }

    // As at a terminal: the line ends there, and the lines go on.
    #[test]
    fn a_read_of_nothing_ends_no_input(rt: HostRuntime) -> io::Result<()> {
        let mut given = Given::new(b"R 4\nI");
        given.more = b" 7\nX";
        let lines = input_lines(&(given, rt.alloc()))?;
        assert_eq!(rt; lines.len(), 4);
        Ok(())
    }

    // What stands behind the limit is not read: not even a read that would fail.
    #[test]
    fn lines_end_at_the_limit(rt: HostRuntime) -> io::Result<()> {
        let mut bytes = Vec::new(rt.alloc());
        bytes.resize(1_048_576, b'7')?;
        let input = (Given::broken(&bytes), rt.alloc());
        let lines = input_lines(&input)?;
        assert_eq!(rt; lines.len(), 1);
        assert!(rt; lines[0] == bytes);
        Ok(())
    }

    #[test]
    fn a_failed_read_gives_no_lines(rt: HostRuntime) {
        for bytes in [b"".as_slice(), b"R 4\n".as_slice(), b"R 4\nI".as_slice()] {
            let input = (Given::broken(bytes), rt.alloc());
            let lines = input_lines(&input).map_err(|why| why.kind());
            assert_eq!(rt;
                lines.map(|lines| lines.len()),
                Err(ErrorKind::ConnectionReset)
            );
        }
    }
}
