// What covers columns, laid in the records, for a walk that was accepted.
ghost use Rattle.std.specs.Prelude.{◌≡◌, false, ◌*◌, ◌≤◌, length, All};
ghost use Rattle.settings.specs.Settings.{start_settings};
ghost use Rattle.write_passes.specs.Placed.{starred_in};
ghost use Rattle.write_passes.specs.Passes.{values_of, walk_of, SomeSmallBegins, SomeAccepted, IsPlain, StarsLaid, laid_in, BytesLaid};

use crate::fields::{put, put_literal};
use crate::{Sheet, has_sp};
use settings::Settings;
use sheet_walk::Cover;
use sheet_walk::placing::Stop;
use sheet_walk::walk::Walk;

// The settings of what covers columns: where no item is SP, those at the start, which the compiler knows.
#[inline(always)]
fn known<const SP: bool>(settings: Settings) -> Settings
    requires { SP ≡ false → settings ≡ start_settings }
    ensures { result ≡ settings }
{
    if SP {
        return settings;
    }
    Settings::START
}

// Lays what covers these columns, in the order of the walk, so that a later item overwrites; so many elements are taken before.
// How many fields are starred. (That the records lie in the buffer stands in the contracts of those who lend it: a ghost field
// beside a lent `&mut` is not possible.) Compiled twice, so that no setting is tested where no item is SP; and not inlined: both
// ways of writing have it once.
#[inline(never)]
fn lay_under<const SP: bool>(
    buffer: &mut [u8],
    covers: &[Cover],
    first: usize,
    sheet: Sheet<'_>,
) -> usize
    requires room { sheet.records.count * sheet.records.width ≤ length buffer.old }
    requires begins { SomeSmallBegins sheet first covers.now }
    requires plain { SP ≡ false → All IsPlain covers.now }
    ensures few { result ≤ length covers.now }
    ensures stars { StarsLaid sheet.entry first covers.now result }
    ensures bytes { BytesLaid sheet.entry first covers.now buffer.old buffer.new }
{
    let mut starred: usize = 0;
    let mut taken = first;
    for cover in covers {
        let part = &mut buffer[cover.at..cover.at + cover.word.columns()];
        if cover.word.is_literal() {
            put_literal(part, cover.word.detail(), sheet.run.chars);
        } else {
            let value = sheet.list.elements[taken].value;
            let stars = put(
                part,
                cover.word.detail(),
                known::<SP>(cover.settings),
                value,
                sheet.list.area,
            );
            starred += usize::from(stars);
            taken += 1;
        }
    }
    starred
}

// The same; `sp` says whether some item is SP.
#[inline(always)]
pub fn lay(buffer: &mut [u8], covers: &[Cover], first: usize, sp: bool, sheet: Sheet<'_>) -> usize
    requires room { sheet.records.count * sheet.records.width ≤ length buffer.old }
    requires begins { SomeSmallBegins sheet first covers.now }
    requires plain { sp ≡ false → All IsPlain covers.now }
    ensures few { result ≤ length covers.now }
    ensures stars { StarsLaid sheet.entry first covers.now result }
    ensures bytes { BytesLaid sheet.entry first covers.now buffer.old buffer.new }
{
    if sp {
        return lay_under::<true>(buffer, covers, first, sheet);
    }
    lay_under::<false>(buffer, covers, first, sheet)
}

// The whole walk, which was accepted, part by part; how many fields are starred.
pub fn lay_pass(buffer: &mut [u8], sheet: Sheet<'_>, covers: &mut [Cover]) -> usize
    requires some { 1 ≤ length covers.old }
    requires room { sheet.records.count * sheet.records.width ≤ length buffer.old }
    requires accepts { SomeAccepted sheet }
    ensures stars { result ≡ starred_in (values_of sheet.entry) (walk_of sheet.entry) }
    ensures bytes { buffer.new ≡ laid_in sheet.entry (walk_of sheet.entry) buffer.old }
{
    let mut starred: usize = 0;
    let sp = has_sp(sheet.run.words);
    let mut walk = Walk::new(sheet.run, sheet.list.elements, sheet.records);
    loop {
        let first = walk.taken();
        let placed = walk.place(covers);
        starred += lay(buffer, &covers[..placed.count], first, sp, sheet);
        let Stop::Full = placed.stop else {
            return starred;
        };
    }
}
