// The lines of a case that has a sheet. They lie in an input, or each is a vector of its own.
ghost use Rattle.std.specs.Prelude.{◌≤◌, length};
ghost use Rattle.std.specs.Slice.Iter.{iter_rest};

use crate::elements::add_line;
use crate::lines::Lines;
use list_elements::List;
use std::slice::Iter;

// A case: its first line, the format, a line of bytes, and the list.
#[derive(Clone, Copy, PartialEq, Eq, Debug)]
pub struct Sheet<'a> {
    pub head: &'a [u8],
    pub format: &'a [u8],
    pub bytes: &'a [u8],
    pub list: List,
}

// The next line of an input; an empty one where there is none.
fn line_or_empty<'a>(lines: &mut Lines<'a>) -> &'a [u8]
    ensures { length lines.new.rest.now ≤ length lines.old.rest.now }
{
    lines.next_line().unwrap_or(&[])
}

// The list of the next lines of an input, up to one with a period.
fn list_from_lines(lines: &mut Lines<'_>) -> List
    ensures { length lines.new.rest.now ≤ length lines.old.rest.now }
{
    let mut list = List::empty();
    while let Some(line) = lines.next_line() {
        if line.starts_with(b".") {
            break;
        }
        add_line(&mut list, line);
    }
    list
}

// The next line; an empty one where there is none.
fn next_line<'a>(lines: &mut Iter<'a, Vec<u8>>) -> &'a [u8]
    ensures { length (iter_rest lines.new) ≤ length (iter_rest lines.old) }
{
    match lines.next() {
        Some(line) => line.as_slice(),
        None => &[],
    }
}

// The list of the next lines, up to one with a period. By `next`, as a `for` over borrowed lines would leave open how many are
// left.
fn next_list(lines: &mut Iter<'_, Vec<u8>>) -> List
    ensures { length (iter_rest lines.new) ≤ length (iter_rest lines.old) }
{
    let mut list = List::empty();
    while let Some(line) = lines.next() {
        if line.starts_with(b".") {
            break;
        }
        add_line(&mut list, line);
    }
    list
}

impl<'a> Sheet<'a> {
    // The case of a first line and the lines after it, all of an input.
    pub fn from_lines(head: &'a [u8], lines: &mut Lines<'a>) -> Self
        ensures { length lines.new.rest.now ≤ length lines.old.rest.now }
    {
        Sheet {
            head,
            format: line_or_empty(lines),
            bytes: line_or_empty(lines),
            list: list_from_lines(lines),
        }
    }

    // The case of a first line and the lines after it.
    pub fn new(head: &'a [u8], lines: &mut Iter<'a, Vec<u8>>) -> Self
        ensures { length (iter_rest lines.new) ≤ length (iter_rest lines.old) }
    {
        Sheet {
            head,
            format: next_line(lines),
            bytes: next_line(lines),
            list: next_list(lines),
        }
    }
}

#[cfg(test)]
mod tests {
    use super::*;
    use std::io;
    use std::io::BufRead;

    // Whether lines in vectors of their own give the same case as in their input, and the same line is next.
    fn same_case(rt: &HostRuntime, text: &[u8]) -> io::Result<bool> {
        let vectors: Vec<Vec<u8>> = BufRead::split(text, rt.alloc(), b'\n').try_collect(
            rt.alloc(),
        )?;
        let mut others = vectors.iter();
        let mut lines = Lines { rest: text };
        let case = Sheet::new(b"R 1", &mut others);
        let same = case == Sheet::from_lines(b"R 1", &mut lines);
        Ok(same && next_line(&mut others) == line_or_empty(&mut lines))
    }

    // The last line may be cut, and lines may be missing.
    #[test]
    fn lines_of_both_kinds_give_the_same_case(rt: HostRuntime) -> io::Result<()> {
        let text: &[u8] = b"(I4,F6.2)\n..\nI 7\nD -1255 3\n.\nR 4\n";
        for n in 0..=text.len() {
            assert!(rt; same_case(&rt, &text[..n])?, "at {n}");
        }
        Ok(())
    }

    // A line that begins with a period ends the case.
    #[test]
    fn a_case_has_its_lines(rt: HostRuntime) -> io::Result<()> {
        let text: &[u8] = b"(I4)\n..\nI 7\nI 8\n.R\nR 4\n";
        let vectors: Vec<Vec<u8>> = BufRead::split(text, rt.alloc(), b'\n').try_collect(
            rt.alloc(),
        )?;
        let mut lines = vectors.iter();
        let case = Sheet::new(b"R 1", &mut lines);
        assert_eq!(rt; case.head, b"R 1".as_slice());
        assert_eq!(rt; case.format, b"(I4)".as_slice());
        assert_eq!(rt; case.bytes, b"..".as_slice());
        assert_eq!(rt; case.list.count, 2);
        assert_eq!(rt; lines.len(), 1);
        assert!(rt; same_case(&rt, text)?);
        Ok(())
    }
}
