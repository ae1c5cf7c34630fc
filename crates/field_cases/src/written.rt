// Fields written: the field with two bytes beside it on either side, between bars, then its answer.
ghost use Rattle.std.specs.Prelude.{◌≤◌, nat_abs};
ghost use Rattle.number.specs.Limits.{largest, most_places};

use crate::Case;
use case_lines::shown::show_bytes;
use field_written::decimal::write_decimal;
use field_written::integer::write_integer;
use number::TooLarge;
use settings::SignSetting;
use std::io;

// n under Iw, after SS or after SP.
#[derive(Clone, Copy, PartialEq, Eq, Debug)]
pub struct IntegerCase {
    width: usize,
    n: i64,
    setting: SignSetting,
    ghost fits: { (width ≤ 64) × (nat_abs n ≤ largest) },
}

// units / 10^places under Fw.d, after SS or after SP.
#[derive(Clone, Copy, PartialEq, Eq, Debug)]
pub struct DecimalCase {
    width: usize,
    d: usize,
    units: i64,
    places: usize,
    setting: SignSetting,
    ghost fits: { (width ≤ 64) × (d ≤ most_places) × (nat_abs units ≤ largest) × (places ≤ most_places) },
}

impl IntegerCase {
    fn new(width: usize, n: i64) -> Self
        requires { (width ≤ 64) × (nat_abs n ≤ largest) }
    {
        IntegerCase {
            width,
            n,
            setting: SignSetting::AfterSS,
        }
    }

    // The same after SP.
    fn after_sp(self) -> Self {
        IntegerCase {
            width: self.width,
            n: self.n,
            setting: SignSetting::AfterSP,
        }
    }
}

impl Case for IntegerCase {
    fn show(&self, rt: &impl Print) -> io::Result<()> {
        let mut line = [b'x'; 68];
        let starred = write_integer(&mut line[2..2 + self.width], self.n, self.setting);
        show_bytes(rt, &line[..self.width + 4])?;
        println!(rt; "{}", if starred { " starred" } else { "" })
    }
}

impl DecimalCase {
    fn new(width: usize, d: usize, units: i64, places: usize) -> Self
        requires { (width ≤ 64) × (d ≤ most_places) × (nat_abs units ≤ largest) × (places ≤ most_places) }
    {
        DecimalCase {
            width,
            d,
            units,
            places,
            setting: SignSetting::AfterSS,
        }
    }

    // The same after SP.
    fn after_sp(self) -> Self {
        DecimalCase {
            width: self.width,
            d: self.d,
            units: self.units,
            places: self.places,
            setting: SignSetting::AfterSP,
        }
    }
}

impl Case for DecimalCase {
    fn show(&self, rt: &impl Print) -> io::Result<()> {
        let mut line = [b'x'; 68];
        let answer = write_decimal(
            &mut line[2..2 + self.width],
            self.d,
            self.units,
            self.places,
            self.setting,
        );
        show_bytes(rt, &line[..self.width + 4])?;
        match answer {
            Ok(false) => println!(rt),
            Ok(true) => println!(rt; " starred"),
            Err(TooLarge) => println!(rt; " refused 11"),
        }
    }
}

pub fn integers() -> [IntegerCase; 10] {
    [
        IntegerCase::new(3, 999),
        IntegerCase::new(3, -99),
        IntegerCase::new(3, 1000),
        IntegerCase::new(3, -100),
        IntegerCase::new(1, 0),
        IntegerCase::new(1, -1),
        IntegerCase::new(2, -1),
        IntegerCase::new(4, 7),
        IntegerCase::new(6, -450),
        IntegerCase::new(64, 10),
    ]
}

pub fn decimals() -> [DecimalCase; 20] {
    [
        DecimalCase::new(4, 1, -3, 1),
        DecimalCase::new(3, 1, -3, 1),
        DecimalCase::new(2, 1, -3, 1),
        DecimalCase::new(3, 1, -4, 2),
        DecimalCase::new(3, 1, 995, 2),
        DecimalCase::new(4, 1, 995, 2),
        DecimalCase::new(4, 1, 994, 2),
        DecimalCase::new(2, 0, 4, 1),
        DecimalCase::new(2, 0, 5, 1),
        DecimalCase::new(1, 0, 0, 0),
        DecimalCase::new(2, 0, -5, 1),
        DecimalCase::new(3, 0, -5, 1),
        DecimalCase::new(6, 2, -1255, 3),
        DecimalCase::new(5, 2, 1234, 2),
        DecimalCase::new(4, 2, 1234, 2),
        DecimalCase::new(5, 3, 7, 0),
        DecimalCase::new(4, 2, -5, 3),
        DecimalCase::new(5, 2, -4, 3),
        DecimalCase::new(2, 1, 3, 1),
        DecimalCase::new(1, 1, 3, 1),
    ]
}

// After SP.
pub fn integers_after_sp() -> [IntegerCase; 10] {
    [
        IntegerCase::new(3, 5),
        IntegerCase::new(3, 0),
        IntegerCase::new(3, -5),
        IntegerCase::new(2, 10),
        IntegerCase::new(2, -1),
        IntegerCase::new(2, -10),
        IntegerCase::new(1, 0),
        IntegerCase::new(2, 0),
        IntegerCase::new(18, 999_999_999_999_999_999),
        IntegerCase::new(20, 999_999_999_999_999_999),
    ]
    .map(|case| case.after_sp())
}

pub fn decimals_after_sp() -> [DecimalCase; 11] {
    [
        DecimalCase::new(4, 1, 3, 1),
        DecimalCase::new(3, 1, 3, 1),
        DecimalCase::new(2, 1, 3, 1),
        DecimalCase::new(4, 1, -4, 2),
        DecimalCase::new(3, 1, -4, 2),
        DecimalCase::new(4, 1, -3, 1),
        DecimalCase::new(2, 0, 0, 0),
        DecimalCase::new(3, 0, 0, 0),
        DecimalCase::new(4, 1, 995, 2),
        DecimalCase::new(5, 1, 995, 2),
        DecimalCase::new(3, 9, 999_999_999_999_999_999, 0),
    ]
    .map(|case| case.after_sp())
}

// At the largest magnitude.
pub fn integer_limits() -> [IntegerCase; 3] {
    [
        IntegerCase::new(18, 999_999_999_999_999_999),
        IntegerCase::new(18, -999_999_999_999_999_999),
        IntegerCase::new(20, -999_999_999_999_999_999),
    ]
}

pub fn decimal_limits() -> [DecimalCase; 8] {
    [
        DecimalCase::new(10, 9, 0, 0),
        DecimalCase::new(11, 9, 0, 0),
        DecimalCase::new(20, 0, 999_999_999_999_999_999, 0),
        DecimalCase::new(20, 9, 999_999_999_999_999_999, 9),
        DecimalCase::new(12, 0, 999_999_999_999_999_999, 9),
        DecimalCase::new(20, 1, 99_999_999_999_999_999, 0),
        DecimalCase::new(20, 1, 100_000_000_000_000_000, 0),
        DecimalCase::new(3, 9, 999_999_999_999_999_999, 0),
    ]
}
