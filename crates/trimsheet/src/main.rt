// The program: reads a sheet from standard input, and writes its records, or the refusal, to standard output. Where it cannot read
// or cannot write, it says so on standard error, and ends with status 1; where it cannot read, it writes nothing.
#![tactic(auto)]

mod failure;

ghost use Rattle.std.specs.Prelude.{OnOk, IfErr};
ghost use Rattle.trimsheet.specs.Runs.{Answered, Failed};

use crate::failure::Failure;
use sheet_text::sheet::sheet;
use sheet_text::{INPUT, OUTPUT, RECORD_BUFFER};
use std::io::{Read, Write};
use std::process::ExitCode;
use streams::reading::read_full;
use streams::writing::write_full;

// Writes the output for the whole of an input, of which it reads the first INPUT bytes. (By `match` and not by `map_err`, since what it
// promises of a failure goes by which one it is.)
fn run<R: Read, W: Write>(reader: &mut R, writer: &mut W) -> Result<(), Failure>
    ensures answered { OnOk result (Answered INPUT (R.remaining reader.old) (R.remaining reader.new) (W.contents writer.old) (W.contents writer.new)) }
    ensures failed { IfErr result (λ why. Failed why INPUT (R.remaining reader.old) (R.remaining reader.new) (W.contents writer.old) (W.contents writer.new)) }
{
    let mut input = [0u8; INPUT];
    let mut records = [0u8; RECORD_BUFFER];
    let mut output = [0u8; OUTPUT];
    let n = match read_full(reader, &mut input) {
        Ok(n) => n,
        Err(why) => return Err(Failure::Read(why)),
    };
    let len = sheet(&input[..n], &mut records, &mut output);
    match write_full(writer, &output[..len]) {
        Ok(()) => Ok(()),
        Err(why) => Err(Failure::Write(why)),
    }
}

fn main(rt: HostRuntime) -> ExitCode {
    match run(&mut rt.stdin(), &mut rt.stdout()) {
        Ok(()) => ExitCode::SUCCESS,
        Err(why) => {
            let _ = eprintln!(rt; "trimsheet: {why}");
            ExitCode::FAILURE
        }
    }
}
