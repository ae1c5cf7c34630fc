// The items met, as a run of words.
ghost use Rattle.std.specs.Prelude.{◌≡◌, List, ℕ, ◌*◌, ◌≤◌, length, take};
ghost use Rattle.format_items.specs.Items.{Items};
ghost use Rattle.format_items.specs.Met.{repeat, met, return_index};
ghost use Rattle.format_words.specs.Held.{Holds};
ghost use Rattle.format_run.specs.Runs.{SomeItemsFit, AreMet};

use format_words::Entry;
use format_words::packed::Packed;

// The first n words, r times instead of once; answers how many they then are. (By index: a word is copied from the one n before
// it, which may be a copy itself.)
fn repeat_words(run: &mut [Packed], n: usize, r: u16) -> usize
    requires some { 1 ≤ r }
    requires room { r * n ≤ length run.old }
    ensures count { result ≡ r * n }
    ensures words { take result run.new ≡ repeat r (take n run.old) }
{
    let end = usize::from(r) * n;
    for i in n..end {
        run[i] = run[i - n];
    }
    end
}

// What unrolling answers: how many words the items met are, and where the part to return to begins among them.
#[derive(Clone, Copy, PartialEq, Eq, Debug)]
pub struct Unrolled {
    pub end: usize,
    pub back: usize,
}

// The items met of the items that the entries hold, as the first words of the run.
pub fn unroll(entries: &[Entry], level: usize, run: &mut [Packed]) -> Unrolled
    requires { SomeItemsFit entries.now level (length run.old) }
    ensures count { (t : List ℕ) (c : ℕ) (xs : Items) → Holds t c level entries.now xs → result.end ≡ length (met xs) }
    ensures words { (t : List ℕ) (c : ℕ) (xs : Items) → Holds t c level entries.now xs → AreMet t c (take result.end run.new) (met xs) }
    ensures returns { (t : List ℕ) (c : ℕ) (xs : Items) → Holds t c level entries.now xs → result.back ≡ return_index xs }
{
    let mut end: usize = 0;
    let mut back: usize = 0;
    let mut rest = entries;
    while let Some((entry, tail)) = rest.split_first() {
        match *entry {
            Entry::Item { repeat, word } => {
                run[end] = word;
                end += repeat_words(&mut run[end..], 1, repeat);
                rest = tail;
            }
            Entry::Group { entries, repeat } => {
                let (inside, after) = tail.split_at(usize::from(entries));
                let free = &mut run[end..];
                let inner = unroll(inside, level - 1, free);
                back = end;
                end += repeat_words(free, inner.end, repeat);
                rest = after;
            }
        }
    }
    Unrolled { end, back }
}
