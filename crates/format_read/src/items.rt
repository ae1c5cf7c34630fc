// An item, and items in brackets: the two readers call each other, the levels left falling at each group, and the text left
// at each item. That the arrays have room for what is read of the text is a clause of each reader, since no struct can hold
// them with such a fact: a ghost field beside a `&mut` is not covered by the language.
ghost use Rattle.std.specs.Prelude.{◌≤◌, length};
ghost use Rattle.format_grammar.specs.Reading.{Mode, State, close};
ghost use Rattle.format_read.specs.Steps.{took};

use crate::{Head, Position, Ungrammatical};
use format_words::Entry;

impl Position<'_> {
    // One item, in which `level` levels of groups may open. A group's entry comes before those of its items, and is put when
    // they have been counted.
    #[cycle(read_item_read_items)]
    fn read_item(
        &mut self,
        level: usize,
        entries: &mut [Entry],
        chars: &mut [u8],
    ) -> Result<(), Ungrammatical>
        requires { (length self.old.text.now ≤ length entries.old) × (length self.old.text.now ≤ length chars.old) }
        ensures { took level (State.within Mode.after) self.old entries.old chars.old self.new entries.new chars.new result }
    {
        let own = self.entries;
        if let Head::Group { repeat } = self.read_head(level, entries, chars)? {
            self.read_items(level - 1, entries, chars)?;
            // A cast: the number is at most 1,024, as the proof shows, and `try_from` would add an arm that is never taken.
            entries[own] = Entry::Group {
                entries: (self.entries - own - 1) as u16,
                repeat,
            };
        }
        Ok(())
    }

    // The items in brackets, from the first one up to the closing bracket.
    #[cycle(read_item_read_items)]
    pub(crate) fn read_items(
        &mut self,
        level: usize,
        entries: &mut [Entry],
        chars: &mut [u8],
    ) -> Result<(), Ungrammatical>
        requires { (length self.old.text.now ≤ length entries.old) × (length self.old.text.now ≤ length chars.old) }
        ensures { took level close self.old entries.old chars.old self.new entries.new chars.new result }
    {
        // A `loop`, since the byte after an item says whether another follows.
        loop {
            self.read_item(level, entries, chars)?;
            match self.text.get(self.at) {
                Some(b')') => {
                    self.at += 1;
                    return Ok(());
                }
                Some(b',') => self.at += 1,
                _ => return Err(Ungrammatical { place: self.at }),
            }
        }
    }
}
