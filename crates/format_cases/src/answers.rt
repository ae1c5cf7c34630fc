// The answers of the format check.
use case_lines::shown::Refused;
use std::io;

pub fn show_check(rt: &impl Print, format: &[u8]) -> io::Result<()> {
    match format_check::check::check(format) {
        Ok(()) => println!(rt; "accepted"),
        Err(refusal) => rt.println(Refused(refusal.into())),
    }
}
