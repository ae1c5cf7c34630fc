// For the benchmark only: functions for C that make one call each of writing, reading and the format check; the crate
// bench_calls_c exports them. Each is proved safe and ending, and promises nothing else. A list passes as the slots of
// `test_calls`, since C passes no enum, and each call makes the list of them, as a program makes its list of what it has; an
// element read passes as a slot too.
#![tactic(auto)]

pub mod calls;
mod lists;
