// The beginning of an item.
ghost use Rattle.std.specs.Prelude.{◌≡◌, true, ◌||◌, List, ℕ, ◌<◌, ◌≤◌, eqb, length, get_or};
ghost use Rattle.format_grammar.specs.Characters.{apostrophe, quotation_mark};
ghost use Rattle.format_grammar.specs.Reading.{Mode, State};
ghost use Rattle.format_read.specs.Steps.{NumberFound, NoBracketOrMark, took, headed};

use crate::digits::read_number;
use crate::literals::read_literal;
use crate::range::look_at_repeat;
use crate::singles::read_single;
use crate::{Head, Number, Position, Ungrammatical};
use format_words::packed::Packed;
use format_words::{Entry, Word};

// An apostrophe or a quotation mark.
fn is_mark(b: u8) -> bool
    ensures { result ≡ (eqb b apostrophe || eqb b quotation_mark) }
{
    b == b'\'' || b == b'"'
}

impl Position<'_> {
    // A literal, with its entry; its opening mark m comes next.
    fn read_literal_item(
        &mut self,
        m: u8,
        entries: &mut [Entry],
        chars: &mut [u8],
    ) -> Result<(), Ungrammatical>
        requires room { (length self.old.text.now ≤ length entries.old) × (length self.old.text.now ≤ length chars.old) }
        requires at_in_bounds { (self.old.at < length self.old.text.now) × (get_or self.old.text.now self.old.at 0 ≡ m) × ((eqb m apostrophe || eqb m quotation_mark) ≡ true) }
        ensures { (l : ℕ) → took l (State.within Mode.after) self.old entries.old chars.old self.new entries.new chars.new result }
    {
        let c = self.chars;
        let literal = read_literal(self.text, self.at + 1, m, chars, c)?;
        let end = literal.end;
        // Casts: both are at most 1,024, as the proof shows, and `try_from` would add an arm that is never taken.
        let word = Packed::of(Word::Literal {
            start: c as u16,
            len: (end - c) as u16,
        });
        entries[self.entries] = Entry::Item { repeat: 1, word };
        self.at = literal.next;
        self.entries += 1;
        self.chars = end;
        Ok(())
    }

    // An item that is neither a group nor a literal, with its entry; the digits m begin it.
    fn read_single_item(&mut self, m: Number, entries: &mut [Entry]) -> Result<(), Ungrammatical>
        requires room { length self.old.text.now ≤ length entries.old }
        requires number_found { NumberFound self.old.text.now self.old.at m.value m.next }
        requires next_in_bounds { (m.next < length self.old.text.now) × NoBracketOrMark (get_or self.old.text.now m.next 0) }
        ensures { (l : ℕ) (t : List ℕ) → took l (State.within Mode.after) self.old entries.old t self.new entries.new t result }
    {
        let single = read_single(self.text, self.at, m, &mut self.outside)?;
        entries[self.entries] = Entry::Item {
            repeat: single.repeat,
            word: Packed::of(single.word),
        };
        self.at = single.next;
        self.entries += 1;
        Ok(())
    }

    // An item, or a group up to its opening bracket, where `level` levels of groups may open.
    pub(crate) fn read_head(
        &mut self,
        level: usize,
        entries: &mut [Entry],
        chars: &mut [u8],
    ) -> Result<Head, Ungrammatical>
        requires { (length self.old.text.now ≤ length entries.old) × (length self.old.text.now ≤ length chars.old) }
        ensures { headed level self.old entries.old chars.old self.new entries.new chars.new result }
    {
        let m = read_number(self.text, self.at);
        let next = m.next;
        if self.text.len() <= next {
            return Err(Ungrammatical { place: next });
        }
        let b = self.text[next];
        if b == b'(' {
            if level == 0 {
                return Err(Ungrammatical { place: next });
            }
            look_at_repeat(&mut self.outside, self.at, m.value);
            self.at = next + 1;
            self.entries += 1;
            return Ok(Head::Group {
                repeat: m.value.unwrap_or(1),
            });
        }
        if !is_mark(b) {
            self.read_single_item(m, entries)?;
            return Ok(Head::Whole);
        }
        if m.value.is_some() {
            return Err(Ungrammatical { place: next });
        }
        self.read_literal_item(b, entries, chars)?;
        Ok(Head::Whole)
    }
}
