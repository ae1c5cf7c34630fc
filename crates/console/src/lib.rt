// The console host's calls: numbers and byte slices. The crate console_c exports them to C.
#![tactic(auto)]

mod answers;

ghost use Rattle.std.specs.Prelude.{◌≡◌};
ghost use Rattle.format_grammar.specs.Check.{outcome};
ghost use Rattle.format_check.specs.Checked.{answer};
ghost use Rattle.sheet_text.specs.FromListText.{answer_from, buffer_from};
ghost use Rattle.console.specs.HostAnswers.{host_write_number, host_check_number};

use crate::answers::{check_answer, write_answer};
use format_check::check::check;
use sheet_text::writing::write_list_text;

// Writes the list of a list text under the format into records of this width in the buffer. Answers the number of records
// written, or the refusal's number negated; the buffer is then as it was.
pub fn trimsheet_write(width: usize, format: &[u8], text: &[u8], records: &mut [u8]) -> i64
    ensures answers { result ≡ host_write_number (answer_from width format.now text.now records.old) }
    ensures bytes { records.new ≡ buffer_from width format.now text.now records.old }
{
    write_answer(write_list_text(width, format, text, records))
}

// Checks a format. Answers 0 where it is accepted, or the refusal's number negated.
pub fn trimsheet_check(format: &[u8]) -> i64
    ensures { result ≡ host_check_number (answer (outcome format.now)) }
{
    check_answer(check(format))
}
