// The logical field.
ghost use Rattle.std.specs.Prelude.{◌≡◌};
ghost use Rattle.field_read.specs.LogicalRead.{after_period, letter_read, logical_read};

use crate::leading::skip_blanks;

// The letter in front.
fn read_letter(part: &[u8]) -> Option<bool>
    ensures { result ≡ letter_read part.now }
{
    match part {
        [b'T', ..] => Some(true),
        [b'F', ..] => Some(false),
        _ => None,
    }
}

// What stands after a period in front, if there is one.
fn skip_period(part: &[u8]) -> &[u8]
    ensures { result.now ≡ after_period part.now }
{
    match part {
        [b'.', rest @ ..] => rest,
        _ => part,
    }
}

// A field read under Lw.
pub fn read_logical(part: &[u8]) -> Option<bool>
    ensures { result ≡ logical_read part.now }
{
    read_letter(skip_period(skip_blanks(part)))
}
