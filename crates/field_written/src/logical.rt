// The logical field.
ghost use Rattle.std.specs.Prelude.{◌≡◌, ◌≤◌, length};
ghost use Rattle.field_written.specs.LogicalField.{letter, logical_field};

use crate::blanks::fill_blanks;

fn letter_of(b: bool) -> u8
    ensures { result ≡ letter b }
{
    if b { b'T' } else { b'F' }
}

// b under Lw, w the columns of the part.
#[tactic(auto, unfolding(crate::specs::LogicalField::logical_field))]
#[inline(always)]
pub fn write_logical(part: &mut [u8], b: bool)
    requires { 1 ≤ length part.old }
    ensures { part.new ≡ logical_field (length part.old) b }
{
    let blanks = part.len() - 1;
    fill_blanks(&mut part[..blanks]);
    part[blanks] = letter_of(b);
}
