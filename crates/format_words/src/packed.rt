// Words in 32 bits, as runs and entries keep them.
ghost use Rattle.std.specs.Prelude.{◌≡◌, ◌<◌, leb};
ghost use Rattle.format_words.specs.Packing.{word_of, word_in, detail_of, literal_kind, kind_in, detail_in, columns_in};

use crate::Word;
use settings::SettingItem;

// The kinds of words. Those of fields that have a width are the lowest, in the order of the kinds of elements that suit them; that of
// literals is the highest, so that kinds can be added between.
pub const I_KIND: u32 = 0;

pub const F_KIND: u32 = 1;

pub const L_KIND: u32 = 2;

pub const AW_KIND: u32 = 3;

const A_KIND: u32 = 4;

const X_KIND: u32 = 5;

const T_KIND: u32 = 6;

const SP_KIND: u32 = 7;

const SS_KIND: u32 = 8;

const S_KIND: u32 = 9;

const SLASH_KIND: u32 = 14;

const LITERAL_KIND: u32 = 15;

// A word: a number of columns (a width, n of X, a literal's length; of T, the column itself), then a small number (the places of an F,
// where a literal starts), then its kind, highest: so one comparison tells a literal, and columns need no division.
#[derive(Clone, Copy, PartialEq, Eq, Debug)]
pub struct Packed {
    bits: u32,
}

impl Packed {
    // What an array of words holds before it is filled: I with no column.
    pub const ZERO: Packed = Packed { bits: 0 };

    // The word of a kind, a small number and a number of columns.
    #[inline(always)]
    fn made(kind: u32, detail: u16, columns: u16) -> Packed
        requires { (kind < 16) × (detail < 4096) }
        ensures { word_in result ≡ word_of kind detail columns }
    {
        Packed {
            bits: u32::from(columns) + 65536 * (u32::from(detail) + 4096 * kind),
        }
    }

    // A word, packed.
    #[inline(always)]
    pub fn of(word: Word) -> Packed
        requires { detail_of word < 4096 }
        ensures { word_in result ≡ word }
    {
        match word {
            Word::I { width } => Packed::made(I_KIND, 0, width),
            Word::F { width, places } => Packed::made(F_KIND, places, width),
            Word::L { width } => Packed::made(L_KIND, 0, width),
            Word::Aw { width } => Packed::made(AW_KIND, 0, width),
            Word::A => Packed::made(A_KIND, 0, 0),
            Word::X { count } => Packed::made(X_KIND, 0, count),
            Word::T { column } => Packed::made(T_KIND, 0, column),
            Word::Setting {
                item: SettingItem::SP,
            } => Packed::made(SP_KIND, 0, 0),
            Word::Setting {
                item: SettingItem::SS,
            } => Packed::made(SS_KIND, 0, 0),
            Word::Setting {
                item: SettingItem::S,
            } => Packed::made(S_KIND, 0, 0),
            Word::Slash => Packed::made(SLASH_KIND, 0, 0),
            Word::Literal { start, len } => Packed::made(LITERAL_KIND, start, len),
        }
    }

    // Its kind.
    #[tactic(auto, unfolding(crate::specs::Packing::kind_in))]
    #[inline(always)]
    pub fn kind(self) -> u32
        ensures { result ≡ kind_in self }
    {
        self.bits / 65536 / 4096
    }

    // Whether it is that of a literal.
    #[inline(always)]
    pub fn is_literal(self) -> bool
        ensures { result ≡ leb literal_kind (kind_in self) }
    {
        LITERAL_KIND <= self.kind()
    }

    // Its small number.
    #[tactic(auto, unfolding(crate::specs::Packing::detail_in))]
    #[inline(always)]
    pub fn detail(self) -> usize
        ensures { result ≡ detail_in self }
    {
        (self.bits / 65536 % 4096) as usize
    }

    // Its number of columns.
    #[tactic(auto, unfolding(crate::specs::Packing::columns_in))]
    #[inline(always)]
    pub fn columns(self) -> usize
        ensures { result ≡ columns_in self }
    {
        (self.bits % 65536) as usize
    }

    // The word that is packed.
    #[tactic(auto, unfolding(crate::specs::Packing::word_in, crate::specs::Packing::kind_in, crate::specs::Packing::detail_in, crate::specs::Packing::columns_in))]
    #[inline(always)]
    pub fn word(self) -> Word
        ensures { result ≡ word_in self }
    {
        let detail = (self.bits / 65536 % 4096) as u16;
        let columns = (self.bits % 65536) as u16;
        match self.bits / 65536 / 4096 {
            I_KIND => Word::I { width: columns },
            F_KIND => Word::F {
                width: columns,
                places: detail,
            },
            L_KIND => Word::L { width: columns },
            AW_KIND => Word::Aw { width: columns },
            A_KIND => Word::A,
            X_KIND => Word::X { count: columns },
            T_KIND => Word::T { column: columns },
            SP_KIND => Word::Setting {
                item: SettingItem::SP,
            },
            SS_KIND => Word::Setting {
                item: SettingItem::SS,
            },
            S_KIND => Word::Setting {
                item: SettingItem::S,
            },
            LITERAL_KIND => Word::Literal {
                start: detail,
                len: columns,
            },
            // SLASH_KIND; no other kind is made.
            _ => Word::Slash,
        }
    }
}
