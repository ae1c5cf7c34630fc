// Where each item of the walk that covers columns stands.
ghost use Rattle.std.specs.Prelude.{◌≡◌};

use crate::walk::{Turn, Walk};
use crate::{Cover, Refusal};

// How many items are placed at once: all that cover columns, on most sheets; and on those of a few elements. (Arrays of a constant
// number: fixed memory. A local array is cleared at each call, so sheets of a few elements get one of their own.)
pub const PART: usize = 80;

pub const SMALL_PART: usize = 16;

pub const FEW_ELEMENTS: usize = 8;

// Why placing stopped: the walk ends, with so many records reached; it is refused; or the lent slice is full, and the walk may go
// on.
#[derive(Clone, Copy, PartialEq, Eq, Debug)]
pub enum Stop {
    Ends { records: usize },
    Refused(Refusal),
    Full,
}

// How many items were placed, and why it stopped.
#[derive(Clone, Copy, PartialEq, Eq, Debug)]
pub struct Placed {
    pub count: usize,
    pub stop: Stop,
}

impl Walk<'_> {
    ghost use Rattle.sheet_walk.specs.Followed.{PlacedAs};

    // Places the items that cover columns, in order, as many as the slice holds. (Fields that follow each other are placed by
    // `fields`, for speed alone: `turn` would place them too. Not inlined: compiled into a caller, its loops have fewer registers.)
    #[inline(never)]
    pub fn place(&mut self, covers: &mut [Cover]) -> Placed
        ensures { PlacedAs self.old self.new result covers.new }
    {
        let mut count: usize = 0;
        loop {
            count += self.fields(&mut covers[count..]);
            if covers.len() <= count {
                let stop = Stop::Full;
                return Placed { count, stop };
            }
            match self.turn() {
                Ok(Turn::Moves) => {}
                Ok(Turn::Covers(cover)) => {
                    covers[count] = cover;
                    count += 1;
                }
                Ok(Turn::Ends) => {
                    let records = self.reached();
                    let stop = Stop::Ends { records };
                    return Placed { count, stop };
                }
                Err(why) => {
                    let stop = Stop::Refused(why);
                    return Placed { count, stop };
                }
            }
        }
    }
}
