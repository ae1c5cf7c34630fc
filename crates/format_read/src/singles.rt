// Items that are neither groups nor literals. (An offset after the position is a plain number, which has to lie in the text: a
// struct of both would be made and taken apart at each call.)
ghost use Rattle.std.specs.Prelude.{◌≡◌, [], Option, ℕ, ◌+◌, ◌<◌, ◌≤◌, length, get_or};
ghost use Rattle.format_items.specs.Items.{Repeat, times};
ghost use Rattle.format_grammar.specs.Reading.{Use, Mode, wanted};
ghost use Rattle.format_words.specs.declared.Word.TheVariants as word;
ghost use Rattle.format_items.specs.Ranges.{repeat_numbers};
ghost use Rattle.buffer.specs.Characters.{letter_t};
ghost use Rattle.format_read.specs.Steps.{NumberFound, number_at, outside_after, found, ended, ItemRead, item_read, NoBracketOrMark};

use crate::digits::read_number;
use crate::range::{look_at, look_at_repeat};
use crate::{Found, Number, Single, Ungrammatical};
use format_items::{LARGEST_COUNT, LARGEST_PLACES, LARGEST_WIDTH};
use format_words::Word;
use settings::SettingItem;

impl Found {
    // The item whose only number it is.
    fn single(self, word: Word, repeat: u16) -> Single
        ensures { result ≡ record { word = word; repeat = repeat; next = self.next } }
    {
        Single {
            word,
            repeat,
            next: self.next,
        }
    }
}

impl Single {
    // An item that sets how fields are written.
    fn setting(item: SettingItem, next: usize) -> Single
        ensures { result ≡ record { word = word.Setting item; repeat = 1; next = next } }
    {
        Single {
            word: Word::Setting { item },
            repeat: 1,
            next,
        }
    }
}

// What I, L and T go on with: one number, from 1 to `high`.
fn read_one(
    text: &[u8],
    at: usize,
    high: u16,
    outside: &mut Option<usize>,
) -> Result<Found, Ungrammatical>
    requires { at ≤ length text.now }
    ensures { found text.now at high outside.old outside.new result }
{
    let m = read_number(text, at);
    let value = m.value.ok_or(Ungrammatical { place: m.next })?;
    look_at(outside, at, value, 1, high);
    Ok(Found {
        value,
        next: m.next,
    })
}

// What A goes on with: a width, or nothing.
fn read_a(text: &[u8], at: usize, repeat: u16, outside: &mut Option<usize>) -> Single
    requires { at ≤ length text.now }
    ensures { (k : Repeat) → times k ≡ repeat → ended text.now at (Use.width_a k) k outside.old outside.new (Ok result) }
{
    let m = read_number(text, at);
    match m.value {
        None => Single {
            word: Word::A,
            repeat,
            next: m.next,
        },
        Some(width) => {
            look_at(outside, at, width, 1, LARGEST_WIDTH);
            Single {
                word: Word::Aw { width },
                repeat,
                next: m.next,
            }
        }
    }
}

// What F goes on with: a width, a point and the places.
fn read_f(
    text: &[u8],
    at: usize,
    repeat: u16,
    outside: &mut Option<usize>,
) -> Result<Single, Ungrammatical>
    requires { at ≤ length text.now }
    ensures { (k : Repeat) → times k ≡ repeat → ended text.now at (Use.width_f k) k outside.old outside.new result }
{
    let m = read_number(text, at);
    let point = m.next;
    let width = m.value.ok_or(Ungrammatical { place: point })?;
    if text.get(point) != Some(&b'.') {
        return Err(Ungrammatical { place: point });
    }
    let start = point + 1;
    let n = read_number(text, start);
    let places = n.value.ok_or(Ungrammatical { place: n.next })?;
    look_at(outside, at, width, 1, LARGEST_WIDTH);
    look_at(outside, start, places, 0, LARGEST_PLACES);
    Ok(Single {
        word: Word::F { width, places },
        repeat,
        next: n.next,
    })
}

// The item that begins at `from` with the digits m, if any, and then T: no digit may stand before it, and a column has to follow.
fn read_t(
    text: &[u8],
    from: usize,
    m: Number,
    outside: &mut Option<usize>,
) -> Result<Single, Ungrammatical>
    requires number_found { NumberFound text.now from m.value m.next }
    requires at_t { (m.next < length text.now) × (get_or text.now m.next 0 ≡ letter_t) }
    ensures { (o : Option ℕ) → outside.old ≡ outside_after o (repeat_numbers (number_at from m.value)) → item_read text.now from (wanted from) [] (from + 1) o outside.new result }
{
    let at = m.next;
    if m.value.is_some() {
        return Err(Ungrammatical { place: at });
    }
    let column = read_one(text, at + 1, LARGEST_COUNT, outside)?;
    let word = Word::T {
        column: column.value,
    };
    Ok(column.single(word, 1))
}

// What S goes on with: another letter, or nothing.
fn read_setting(text: &[u8], at: usize) -> Single
    requires { at ≤ length text.now }
    ensures { (o : Option ℕ) → ItemRead text.now at Mode.letter [] at o result.word result.repeat result.next o }
{
    match text.get(at) {
        Some(b'P') => Single::setting(SettingItem::SP, at + 1),
        Some(b'S') => Single::setting(SettingItem::SS, at + 1),
        _ => Single::setting(SettingItem::S, at),
    }
}

// The item, neither a group nor a literal, that begins at `from` with the digits m.
pub fn read_single(
    text: &[u8],
    from: usize,
    m: Number,
    outside: &mut Option<usize>,
) -> Result<Single, Ungrammatical>
    requires number_found { NumberFound text.now from m.value m.next }
    requires at_in_bounds { (m.next < length text.now) × NoBracketOrMark (get_or text.now m.next 0) }
    ensures { item_read text.now from (wanted from) [] (from + 1) outside.old outside.new result }
{
    let at = m.next;
    let repeat = m.value.unwrap_or(1);
    look_at_repeat(outside, from, m.value);
    match text[at] {
        b'I' => {
            let width = read_one(text, at + 1, LARGEST_WIDTH, outside)?;
            Ok(width.single(Word::I { width: width.value }, repeat))
        }
        b'F' => read_f(text, at + 1, repeat, outside),
        b'L' => {
            let width = read_one(text, at + 1, LARGEST_WIDTH, outside)?;
            Ok(width.single(Word::L { width: width.value }, repeat))
        }
        b'A' => Ok(read_a(text, at + 1, repeat, outside)),
        b'T' => read_t(text, from, m, outside),
        b'X' => {
            let count = m.value.ok_or(Ungrammatical { place: at })?;
            Ok(Single {
                word: Word::X { count },
                repeat: 1,
                next: at + 1,
            })
        }
        b'S' => match m.value {
            None => Ok(read_setting(text, at + 1)),
            Some(_) => Err(Ungrammatical { place: at }),
        },
        b'/' => Ok(Single {
            word: Word::Slash,
            repeat,
            next: at + 1,
        }),
        _ => Err(Ungrammatical { place: at }),
    }
}
