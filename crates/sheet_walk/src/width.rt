// The record width.
ghost use Rattle.std.specs.Prelude.{◌≤◌};
ghost use Rattle.sheet_walk.specs.Steps.{widest_record};

use crate::{Refusal, WIDEST_RECORD};

// The width of a record: 1 to 255 columns.
#[derive(Clone, Copy, PartialEq, Eq, Debug)]
pub struct Width {
    pub columns: usize,
    ghost from: { 1 ≤ columns },
    ghost to: { columns ≤ widest_record },
}

impl TryFrom<usize> for Width {
    ghost use Rattle.std.specs.Prelude.{◌≡◌, MatchResult};
    ghost use Rattle.sheet_walk.specs.Promises.{WidthRight};
    ghost use Rattle.sheet_walk.specs.declared.Refusal.TheVariants.{RecordWidth};

    type Error = Refusal;

    ghost try_from_gives = { λ columns r. MatchResult r (λ width. width.columns ≡ columns) (λ why. (why ≡ RecordWidth) × (WidthRight columns → ⊥)) };

    fn try_from(columns: usize) -> Result<Width, Refusal> {
        if (1..=WIDEST_RECORD).contains(&columns) {
            return Ok(Width { columns });
        }
        Err(Refusal::RecordWidth)
    }
}
