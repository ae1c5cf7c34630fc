// Fields written: integers under Iw, decimals under Fw.d, logicals under Lw, texts under Aw. Each fills the part of the
// buffer that is lent to it.
#![tactic(auto)]

pub mod blanks;
pub mod decimal;
pub mod integer;
pub mod logical;
pub mod signed;
pub mod text;

use settings::SignSetting;

// The sign in front of a numeral.
#[derive(Clone, Copy, PartialEq, Eq, Debug)]
pub enum Sign {
    None,
    Plus,
    Minus,
}

impl Sign {
    ghost use Rattle.std.specs.Prelude.{◌≡◌, ◌<◌, length};
    ghost use Rattle.field_written.specs.Numeral.{sign_bytes};
    ghost use Rattle.field_written.specs.Written.{sign_if};

    // A minus below zero; else no sign, or after SP a plus.
    pub fn of(setting: SignSetting, negative: bool) -> Sign
        ensures { result ≡ sign_if setting negative }
    {
        if negative {
            return Sign::Minus;
        }
        match setting {
            SignSetting::AfterSS => Sign::None,
            SignSetting::AfterSP => Sign::Plus,
        }
    }

    // The columns that it takes.
    pub fn width(self) -> usize
        ensures columns { result ≡ length (sign_bytes self) }
        ensures one { result < 2 }
    {
        match self {
            Sign::None => 0,
            Sign::Plus | Sign::Minus => 1,
        }
    }

    // Its byte, where there is one.
    pub fn put(self, part: &mut [u8])
        requires { length part.old ≡ length (sign_bytes self) }
        ensures { part.new ≡ sign_bytes self }
    {
        match self {
            Sign::None => {}
            // One store for both, which takes fewer instructions.
            Sign::Plus | Sign::Minus => {
                part[0] = if self == Sign::Minus { b'-' } else { b'+' };
            }
        }
    }
}
