// The program's whole input to its whole output: the public call.
ghost use Rattle.std.specs.Prelude.{◌≡◌, ◌+◌, List, ℕ, ◌≤◌, length, take};
ghost use Rattle.buffer.specs.Splice.{splice};
ghost use Rattle.sheet_walk.specs.Refusals.{refusal_number, refusal_place};
ghost use Rattle.sheet_text.specs.FromListText.{buffer_from};
ghost use Rattle.sheet_text.specs.Input.{input_width, input_format, input_list};
ghost use Rattle.sheet_text.specs.Output.{refused_line};
ghost use Rattle.sheet_text.specs.SheetOutput.{sheet_output};

use crate::lines::{LONGEST_LINE, Line};
use crate::records::put_records;
use crate::width::read_width;
use crate::writing::write_list_text;
use crate::{INPUT, OUTPUT, RECORD_BUFFER};
use buffer::copying::copy;
use list_text::lines::split_line;
use sheet_walk::{Counts, Refusal};

// Puts a line from the offset `at` on, and answers the offset after it. (Offsets in a buffer of the caller's: fixed memory.)
fn put_line(output: &mut [u8; OUTPUT], at: usize, line: &Line) -> usize
    requires { at + LONGEST_LINE ≤ length output.old }
    ensures line { output.new ≡ splice output.old at line.now }
    ensures end { result ≡ at + length line.now }
    ensures few { result ≤ at + LONGEST_LINE }
{
    let bytes = line.as_bytes();
    let end = at + bytes.len();
    copy(&mut output[at..end], bytes);
    end
}

// The line of a refused sheet. (A cast, here and below, as no `From` makes a `u64` of a `usize`.)
fn refusal_line(refusal: Refusal) -> Line
    ensures { result ≡ refused_line (refusal_number refusal) (refusal_place refusal) }
{
    Line::refused(refusal.number(), refusal.place() as u64)
}

// Puts the output for an input, any bytes, from the output buffer's first byte on, and answers its length. The records are
// written into a buffer of their own first. The first INPUT bytes of a longer input have the output of the whole.
pub fn sheet(input: &[u8], records: &mut [u8; RECORD_BUFFER], output: &mut [u8; OUTPUT]) -> usize
    ensures length { result ≡ length (sheet_output input.now) }
    ensures room { result ≤ OUTPUT }
    ensures output { output.new ≡ splice output.old 0 (sheet_output input.now) }
    ensures records { records.new ≡ buffer_from (input_width input.now) (input_format input.now) (input_list input.now) records.old }
    ensures whole { (whole : List ℕ) → input.now ≡ take INPUT whole → sheet_output input.now ≡ sheet_output whole }
{
    let (first, rest) = split_line(input);
    let (format, list) = split_line(rest);
    let width = read_width(first);
    match write_list_text(width, format, list, records) {
        Err(refusal) => put_line(output, 0, &refusal_line(refusal)),
        Ok(
            Counts {
                records: count,
                starred,
            },
        ) => {
            let at = put_records(output, width, count, records);
            put_line(output, at, &Line::counts(count as u64, starred as u64))
        }
    }
}
