// A run: the items met of a format.
ghost use Rattle.std.specs.Prelude.{map, ◌≤◌, length};
ghost use Rattle.format_items.specs.MetRanges.{AllMetWithin, AllMetWithin-prop};
ghost use Rattle.format_words.specs.Words.{met_in, RunWords};

use crate::packed::Packed;

// The items met, as words, and the characters of their literals; the part that the walk returns to begins with the word at `back`.
#[derive(Clone, Copy)]
pub struct Run<'a> {
    pub words: &'a [Packed],
    pub back: usize,
    pub chars: &'a [u8],
    ghost sound: { RunWords (length chars.now) words.now },
    ghost within: { AllMetWithin (map (met_in chars.now) words.now) } by { AllMetWithin-prop (map (met_in chars.now) words.now) },
}
