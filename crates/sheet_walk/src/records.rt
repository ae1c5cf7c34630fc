// The records of a buffer.
ghost use Rattle.std.specs.Prelude.{◌*◌, ◌^◌, ◌<◌, ◌≤◌};
ghost use Rattle.sheet_walk.specs.Steps.{widest_record};

use crate::width::Width;
use crate::{Refusal, WIDEST_RECORD};

// The records that a buffer holds: their width and their number. There is one at least, and a byte's place in them is a number
// of the machine.
#[derive(Clone, Copy, PartialEq, Eq, Debug)]
pub struct Records {
    pub width: usize,
    pub count: usize,
    ghost some_record: { 0 < count },
    ghost narrow: { width ≤ widest_record },
    ghost fits: { count * width < 2 ^ 63 },
}

impl Records {
    ghost use Rattle.std.specs.Prelude.{length};
    ghost use Rattle.sheet_walk.specs.Given.{LentAs};

    // The whole records of a lent buffer, if there is one: row 9 before the walk. The least of the width and the widest is the
    // width; written so, the compiler knows that it is small, and a field takes less.
    #[inline(always)]
    pub fn lent(width: Width, buffer: &[u8]) -> Result<Records, Refusal>
        ensures { LentAs width.columns (length buffer.now) result }
    {
        let count = buffer.len() / width.columns;
        if count == 0 {
            return Err(Refusal::NoRecord);
        }
        Ok(Records {
            width: width.columns.min(WIDEST_RECORD),
            count,
        })
    }
}
