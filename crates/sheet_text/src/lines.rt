// The last line of the output.
ghost use Rattle.std.specs.Prelude.{◌≡◌, ◌+◌, ◌*◌, ◌≤◌, List, ℕ, [], ◌++◌, length, take};
ghost use Rattle.number.specs.Digits.{digits_of};
ghost use Rattle.sheet_text.specs.Output.{decimal_digits, counts_line, refused_line};
ghost use Rattle.sheet_text.specs.declared.lines.TheConstants.{LONGEST_LINE};

use buffer::copying::copy;
use number::MOST_DIGITS;
use number::digits::digit_count;
use number::powers::power_of_ten;
use number::put::put_digits;
use std::marker::Model;

// Room for a line, its line feed included.
pub const LONGEST_LINE: usize = 96;

// A line with its line feed. (Fixed memory, so an array and a length, and no `Vec`.)
#[derive(Drop)]
pub struct Line {
    bytes: [u8; LONGEST_LINE],
    len: usize,
}

impl Model for Line {
    ghost Value = { List ℕ };

    ghost view = { λ l. take l.len l.bytes };

    ghost invariant = { λ l. l.len ≤ LONGEST_LINE };
}

impl Line {
    // The empty line.
    fn new() -> Self
        ensures { result ≡ [] }
    {
        Line {
            bytes: [0; LONGEST_LINE],
            len: 0,
        }
    }

    fn push(&mut self, bytes: &[u8])
        requires { length self.old + length bytes.now ≤ LONGEST_LINE }
        ensures { self.new ≡ self.old ++ bytes.now }
    {
        let end = self.len + bytes.len();
        copy(&mut self.bytes[self.len..end], bytes);
        self.len = end;
    }

    // The last k digits of n.
    fn push_digits(&mut self, k: usize, n: u64)
        requires { length self.old + k ≤ LONGEST_LINE }
        ensures digits { self.new ≡ self.old ++ digits_of k n }
        ensures len { length self.new ≡ length self.old + k }
    {
        let end = self.len + k;
        put_digits(&mut self.bytes[self.len..end], n);
        self.len = end;
    }

    // The digits of n with no leading zero. The last 18 of more than 18 are put by themselves, since no more are counted. (Not by
    // `write!`: that answers a `Result`, and nothing says that it never fails.)
    fn push_number(&mut self, n: u64)
        requires { length self.old + 2 * MOST_DIGITS ≤ LONGEST_LINE }
        ensures digits { self.new ≡ self.old ++ decimal_digits n }
        ensures few { length self.new ≤ length self.old + 2 * MOST_DIGITS }
    {
        let high = n / power_of_ten(MOST_DIGITS);
        if 0 < high {
            self.push_digits(digit_count(high), high);
            self.push_digits(MOST_DIGITS, n);
        } else {
            self.push_digits(digit_count(n), n);
        }
    }

    // The last line of an accepted sheet.
    pub fn counts(records: u64, starred: u64) -> Self
        ensures { result ≡ counts_line records starred }
    {
        let mut line = Line::new();
        line.push(b"records ");
        line.push_number(records);
        line.push(b" starred ");
        line.push_number(starred);
        line.push(b"\n");
        line
    }

    // The line of a refused sheet.
    pub fn refused(number: u64, place: u64) -> Self
        ensures { result ≡ refused_line number place }
    {
        let mut line = Line::new();
        line.push(b"refused ");
        line.push_number(number);
        line.push(b" ");
        line.push_number(place);
        line.push(b"\n");
        line
    }

    pub fn as_bytes(&self) -> &[u8]
        ensures bytes { result.now ≡ self.now }
        ensures few { length result.now ≤ LONGEST_LINE }
    {
        &self.bytes[..self.len]
    }
}
