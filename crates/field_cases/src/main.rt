// Numeric fields through the compiled library: a line for each case, held to `stdout`.
#![tactic(auto)]

mod read;
mod written;

use std::io;

// A field written or read, whose line can be printed.
trait Case {
    fn show(&self, rt: &impl Print) -> io::Result<()>;
}

fn show_all(rt: &impl Print, cases: &[impl Case]) -> io::Result<()> {
    cases.iter().try_for_each(|case| case.show(rt))
}

fn main(rt: HostRuntime) -> io::Result<()> {
    show_all(&rt, &written::integers())?;
    show_all(&rt, &written::decimals())?;
    show_all(&rt, &written::integers_after_sp())?;
    show_all(&rt, &written::decimals_after_sp())?;
    show_all(&rt, &written::integer_limits())?;
    show_all(&rt, &written::decimal_limits())?;
    show_all(&rt, &read::integers())?;
    show_all(&rt, &read::decimals())?;
    show_all(&rt, &read::no_integers())?;
    show_all(&rt, &read::no_decimals())
}
