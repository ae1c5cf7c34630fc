// Ranges of numbers.
ghost use Rattle.std.specs.Prelude.{◌≡◌};
ghost use Rattle.format_items.specs.Items.{number};
ghost use Rattle.format_items.specs.Ranges.{ranged, repeat_numbers};
ghost use Rattle.format_read.specs.Steps.{number_at, keep_first, outside_after};

use format_items::LARGEST_COUNT;

// The number at `at` is looked at: where it is out of range and none was before, it is the first one.
pub fn look_at(outside: &mut Option<usize>, at: usize, value: u16, low: u16, high: u16)
    ensures { outside.new ≡ keep_first outside.old (ranged (number at value) low high) }
{
    if !(low..=high).contains(&value) && outside.is_none() {
        *outside = Some(at);
    }
}

// The repeat or count at `at` is looked at, if there is one.
pub fn look_at_repeat(outside: &mut Option<usize>, at: usize, value: Option<u16>)
    ensures { outside.new ≡ outside_after outside.old (repeat_numbers (number_at at value)) }
{
    if let Some(value) = value {
        look_at(outside, at, value, 1, LARGEST_COUNT);
    }
}
