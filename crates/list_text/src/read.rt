// A list text read: the public call.
ghost use Rattle.std.specs.Prelude.{◌≡◌, ◌+◌, ◌≤◌, length, take, drop};
ghost use Rattle.std.specs.Result.{result_unwrap_or};
ghost use Rattle.list_elements.specs.Elements.{empty_list};
ghost use Rattle.list_elements.specs.Limits.{check_number, check_place};
ghost use Rattle.list_text.specs.Lines.{first_line};
ghost use Rattle.list_text.specs.Promises.{longest_line};
ghost use Rattle.list_text.specs.ListText.{line_check, line_list, line_read};

use crate::elements::element_on;
use crate::lines::first_line;
use list_elements::limits::LONGEST;
use list_elements::{BadElement, Element, List};

// The longest line of an element within its limits: A, a blank and the longest text.
const LONGEST_LINE: usize = 2 + LONGEST;

// The line from this offset on, of which at most LONGEST_LINE + 1 bytes are looked at: one longer than LONGEST_LINE is outside
// the limits, whatever it holds. (A plain offset, as the place of a text is counted from the start. Two slices, since the compiler
// unrolls the search through one of a length that it knows.)
fn line_from(text: &[u8], at: usize) -> &[u8]
    requires { at ≤ length text.now }
    ensures { result.now ≡ first_line (take (longest_line + 1) (drop at text.now)) }
{
    let rest = &text[at..];
    if rest.len() <= LONGEST_LINE {
        return first_line(rest);
    }
    first_line(&rest[..LONGEST_LINE + 1])
}

// The list of a list text, its texts as places in the text itself; or refusal 6. Any bytes. (A `while` and no `split`, which
// would look through the whole of a line that is too long.)
pub fn read_list(text: &[u8]) -> Result<List, BadElement>
    ensures read { result ≡ line_read text.now }
    ensures list { result_unwrap_or result empty_list ≡ line_list text.now }
    ensures number { check_number result ≡ check_number (line_check text.now) }
    ensures place { check_place result ≡ check_place (line_check text.now) }
{
    let mut list = List::empty();
    let mut at = 0;
    while at < text.len() {
        let place = list.count;
        if place == List::MOST {
            return Err(BadElement { place });
        }
        let line = line_from(text, at);
        let value = match element_on(at, line) {
            Some(value) if value.is_within_limits(text) => value,
            _ => return Err(BadElement { place }),
        };
        list.elements[place] = Element { value };
        list.count += 1;
        at += line.len() + 1;
    }
    Ok(list)
}
