// What writing does with the placed items: it checks their values, and changes no record; then it lays the records.
#![tactic(auto)]

ghost use Rattle.std.specs.Prelude.{◌≡◌};
ghost use Rattle.write_passes.specs.Passes.{word_is_sp, sp_among};

pub mod checking;
pub mod fields;
pub mod laying;

use format_words::Word;
use format_words::packed::Packed;
use format_words::run::Run;
use list_elements::listed::Listed;
use settings::SettingItem;
use sheet_walk::records::Records;

// A sheet to be written: the run of its format, its elements, and the records that they go into.
#[derive(Clone, Copy)]
pub struct Sheet<'a> {
    pub run: Run<'a>,
    pub list: Listed<'a>,
    pub records: Records,
}

// Whether a word is that of SP.
fn is_sp(word: Word) -> bool
    ensures { result ≡ word_is_sp word }
{
    match word {
        Word::Setting {
            item: SettingItem::SP,
        } => true,
        _ => false,
    }
}

// Whether some word is. (Not inlined: that leaves more registers to what calls it.)
#[inline(never)]
pub fn has_sp(words: &[Packed]) -> bool
    ensures { result ≡ sp_among words.now }
{
    words.iter().any(|packed| is_sp(packed.word()))
}
