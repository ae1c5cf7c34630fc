// The size of items.
ghost use Rattle.std.specs.Prelude.{◌≡◌, List, ℕ, ◌+◌, ◌≤◌};
ghost use Rattle.format_items.specs.Items.{Items};
ghost use Rattle.format_items.specs.Size.{size, largest_size};
ghost use Rattle.format_words.specs.Held.{Holds, SomeItems};
ghost use Rattle.format_run.specs.Sizes.{capped};

use format_items::LARGEST_SIZE;
use format_words::Entry;

// What any size over the largest counts as. (A cap and no `Option`: the sums go on with it, without a case for `None` in each.)
const TOO_LARGE: usize = LARGEST_SIZE + 1;

// The size of the items that the entries hold, as far as it matters, by recursion over nested groups.
pub fn size_of(entries: &[Entry], level: usize) -> usize
    requires { SomeItems entries.now level }
    ensures sized { (t : List ℕ) (c : ℕ) (xs : Items) → Holds t c level entries.now xs → result ≡ capped (size xs) }
    ensures bounded { result ≤ largest_size + 1 }
{
    let mut total: usize = 0;
    let mut rest = entries;
    while let Some((entry, tail)) = rest.split_first() {
        match *entry {
            Entry::Item { repeat, word: _ } => {
                total = (total + usize::from(repeat)).min(TOO_LARGE);
                rest = tail;
            }
            Entry::Group { entries, repeat } => {
                let (inside, after) = tail.split_at(usize::from(entries));
                total = (total + usize::from(repeat) * size_of(inside, level - 1)).min(TOO_LARGE);
                rest = after;
            }
        }
    }
    total
}
