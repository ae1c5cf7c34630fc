// Answers as numbers.
ghost use Rattle.std.specs.Prelude.{◌≡◌, ◌^◌, ◌<◌};
ghost use Rattle.sheet_walk.specs.Answers.{answer_records};
ghost use Rattle.console.specs.HostAnswers.{host_write_number, host_check_number};

use format_check::FormatRefusal;
use sheet_walk::{Counts, Refusal};

// The records written, or the refusal's number negated. (Casts, here and below, for the C interface's one number; the proof has
// each within range.)
pub fn write_answer(answer: Result<Counts, Refusal>) -> i64
    requires { answer_records answer < 2 ^ 63 }
    ensures { result ≡ host_write_number answer }
{
    match answer {
        Ok(counts) => counts.records as i64,
        Err(why) => -(why.number() as i64),
    }
}

// 0, or the refusal's number negated.
pub fn check_answer(answer: Result<(), FormatRefusal>) -> i64
    ensures { result ≡ host_check_number answer }
{
    match answer {
        Ok(()) => 0,
        Err(refusal) => -(refusal.number() as i64),
    }
}
