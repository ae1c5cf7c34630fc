// The items met.
use format_items::{LARGEST_SIZE, LONGEST_FORMAT};
use format_load::load::load;
use format_words::packed::Packed;
use format_words::{Entry, Word};
use settings::SettingItem;
use std::io;

// A literal's characters; none where they are not all there. They need be no text, so no `Display` can write them.
fn show_literal(rt: &impl Print, chars: &[u8], start: usize, len: usize) -> io::Result<()> {
    let literal = chars.get(start..).and_then(|rest| rest.get(..len));
    rt.write_all(b"<")?;
    rt.write_all(literal.unwrap_or(&[]))?;
    rt.write_all(b">")
}

// The letters of an item that sets how fields are written.
fn show_setting(rt: &impl Print, item: SettingItem) -> io::Result<()> {
    match item {
        SettingItem::SP => print!(rt; "SP"),
        SettingItem::SS => print!(rt; "SS"),
        SettingItem::S => print!(rt; "S"),
    }
}

// One item met.
fn show_word(rt: &impl Print, word: Word, chars: &[u8]) -> io::Result<()> {
    print!(rt; " ")?;
    match word {
        Word::I { width } => print!(rt; "I{width}"),
        Word::F { width, places } => print!(rt; "F{width}.{places}"),
        Word::L { width } => print!(rt; "L{width}"),
        Word::A => print!(rt; "A"),
        Word::Aw { width } => print!(rt; "A{width}"),
        Word::X { count } => print!(rt; "{count}X"),
        Word::T { column } => print!(rt; "T{column}"),
        Word::Slash => print!(rt; "/"),
        Word::Literal { start, len } => {
            show_literal(rt, chars, usize::from(start), usize::from(len))
        }
        Word::Setting { item } => show_setting(rt, item),
    }
}

// The items met of a format.
pub fn show_run(rt: &impl Print, format: &[u8]) -> io::Result<()> {
    let mut entries = [Entry::ZERO; LONGEST_FORMAT];
    let mut chars = [0u8; LONGEST_FORMAT];
    let mut words = [Packed::ZERO; LARGEST_SIZE];
    match load(format, &mut entries, &mut chars, &mut words) {
        Err(_) => println!(rt; "refused"),
        Ok(run) => {
            print!(rt; "size {} return {}:", run.words.len(), run.back)?;
            for packed in run.words {
                show_word(rt, packed.word(), run.chars)?;
            }
            println!(rt)
        }
    }
}
