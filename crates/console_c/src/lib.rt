// The console host's calls, exported to C: those of the crate console, with its promises. `include/trimsheet.h` calls them by these
// names, with an address for each slice: a slice's address is never null, also where it is empty.
#![tactic(auto)]

ghost use Rattle.std.specs.Prelude.{◌≡◌};
ghost use Rattle.format_grammar.specs.Check.{outcome};
ghost use Rattle.format_check.specs.Checked.{answer};
ghost use Rattle.sheet_text.specs.FromListText.{answer_from, buffer_from};
ghost use Rattle.console.specs.HostAnswers.{host_write_number, host_check_number};

// `console::trimsheet_write`.
#[unsafe(no_mangle)]
pub extern "C" fn trimsheet_write_slices(
    width: usize,
    format: &[u8],
    text: &[u8],
    records: &mut [u8],
) -> i64
    ensures answers { result ≡ host_write_number (answer_from width format.now text.now records.old) }
    ensures bytes { records.new ≡ buffer_from width format.now text.now records.old }
{
    console::trimsheet_write(width, format, text, records)
}

// `console::trimsheet_check`.
#[unsafe(no_mangle)]
pub extern "C" fn trimsheet_check_slice(format: &[u8]) -> i64
    ensures { result ≡ host_check_number (answer (outcome format.now)) }
{
    console::trimsheet_check(format)
}
