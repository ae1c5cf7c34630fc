// The walk over a run of words.
ghost use Rattle.std.specs.Prelude.{◌≡◌, List, ℕ, ◌+◌, ◌*◌, ◌^◌, ◌<◌, ◌≤◌, length, take, drop};
ghost use Rattle.std.specs.List.{list_any};
ghost use Rattle.format_words.specs.Words.{met_in};
ghost use Rattle.format_words.specs.Packing.{word_in};
ghost use Rattle.list_elements.specs.Elements.{kind_of};
ghost use Rattle.sheet_walk.specs.Steps.{has_field};
ghost use Rattle.sheet_walk.specs.Given.{items_of, word_is_field, suited_width, kind_number};

use crate::records::Records;
use crate::{Cover, Refusal, State};
use format_words::Word;
use format_words::packed::{AW_KIND, F_KIND, I_KIND, L_KIND, Packed};
use format_words::run::Run;
use list_elements::{Element, Value};
use settings::{SettingItem, Settings};

// A walk: what it goes by, and where it stands. The part to return to has a field or not.
#[derive(Clone, Copy)]
pub struct Walk<'a> {
    run: Run<'a>,
    elements: &'a [Element],
    records: Records,
    returns: bool,
    index: usize,
    state: State,
    ghost returns_is: { returns ≡ has_field (drop run.back (items_of run)) },
    ghost in_record: { state.row < records.count },
    ghost from: { 1 ≤ state.column },
    ghost to: { state.column ≤ records.width + 1 },
    ghost few: { state.taken ≤ length elements.now },
}

// Whether a word is that of a field.
fn is_field(word: Word) -> bool
    ensures { result ≡ word_is_field word }
{
    match word {
        Word::I { width: _ }
        | Word::F {
            width: _,
            places: _,
        }
        | Word::L { width: _ } => true,
        Word::A | Word::Aw { width: _ } => true,
        _ => false,
    }
}

// Whether some word is.
fn has_field(words: &[Packed]) -> bool
    ensures { result ≡ list_any (λ p. word_is_field (word_in p)) words.now }
{
    words.iter().any(|packed| is_field(packed.word()))
}

// The columns that a field covers for an element of this value, where its kind suits.
#[inline(always)]
fn field_width(word: Word, value: Value) -> Option<usize>
    ensures { result ≡ suited_width word (kind_of value) }
{
    match (word, value) {
        (Word::I { width }, Value::Integer(_)) => Some(usize::from(width)),
        (Word::F { width, places: _ }, Value::Decimal(_)) => Some(usize::from(width)),
        (Word::L { width }, Value::Logical(_)) => Some(usize::from(width)),
        (Word::A, Value::Text(text)) => Some(text.len),
        (Word::Aw { width }, Value::Text(_)) => Some(usize::from(width)),
        _ => None,
    }
}

// The kind of the words of fields that the value suits, A alone aside.
#[inline(always)]
fn suited_kind(value: Value) -> u32
    ensures { result ≡ kind_number (kind_of value) }
{
    match value {
        Value::Integer(_) => I_KIND,
        Value::Decimal(_) => F_KIND,
        Value::Logical(_) => L_KIND,
        Value::Text(_) => AW_KIND,
    }
}

// What one turn of the walk does: it moves on, covers columns, or ends.
#[derive(Clone, Copy, PartialEq, Eq, Debug)]
pub(crate) enum Turn {
    Moves,
    Covers(Cover),
    Ends,
}

impl<'a> Walk<'a> {
    ghost use Rattle.settings.specs.Settings.{set_by};
    ghost use Rattle.format_items.specs.Items.{Field};
    ghost use Rattle.format_items.specs.Met.{Met};
    ghost use Rattle.sheet_walk.specs.Steps.{with_settings, What, cover_step, field_step, x_step, t_step, next_record};
    ghost use Rattle.sheet_walk.specs.Walk.{walk};
    ghost use Rattle.list_elements.specs.Elements.{kinds_of};
    ghost use Rattle.sheet_walk.specs.Given.{given_sheet, records_of};
    ghost use Rattle.sheet_walk.specs.Followed.{GoesBy, sheet_of, left_of, SameSheet, MovesAs, CoversAs, AnswersAs, TurnIs, FieldsAs};

    // A slash, and a return: to the next record.
    #[inline(always)]
    fn next_record(&mut self) -> Result<(), Refusal>
        ensures same { SameSheet self.old self.new }
        ensures index { self.new.index ≡ self.old.index }
        ensures moves { MovesAs (next_record (records_of self.old.records) self.old.state) result self.new.state }
    {
        let row = self.state.row + 1;
        if row < self.records.count {
            self.state.row = row;
            self.state.column = 1;
            return Ok(());
        }
        Err(Refusal::NextRecord {
            place: self.state.taken,
        })
    }

    // nX: so many columns on.
    #[inline(always)]
    fn skip(&mut self, n: usize) -> Result<(), Refusal>
        ensures same { SameSheet self.old self.new }
        ensures index { self.new.index ≡ self.old.index }
        ensures moves { MovesAs (x_step (records_of self.old.records) self.old.state n) result self.new.state }
    {
        if n <= self.records.width + 1 - self.state.column {
            self.state.column += n;
            return Ok(());
        }
        Err(Refusal::Column {
            place: self.state.taken,
        })
    }

    // Tn: to a column.
    #[inline(always)]
    fn tab(&mut self, n: usize) -> Result<(), Refusal>
        requires { 1 ≤ n }
        ensures same { SameSheet self.old self.new }
        ensures index { self.new.index ≡ self.old.index }
        ensures moves { MovesAs (t_step (records_of self.old.records) self.old.state n) result self.new.state }
    {
        if n <= self.records.width {
            self.state.column = n;
            return Ok(());
        }
        Err(Refusal::Column {
            place: self.state.taken,
        })
    }

    // SP, SS and S: to other settings.
    #[inline(always)]
    fn set(&mut self, item: SettingItem)
        ensures same { SameSheet self.old self.new }
        ensures index { self.new.index ≡ self.old.index }
        ensures moves { self.new.state ≡ with_settings self.old.state (set_by item self.old.state.settings) }
    {
        self.state.settings = self.state.settings.set(item);
    }

    // So many columns are covered, and then so many elements taken; where the first column stands.
    #[inline(always)]
    fn cover(&mut self, width: usize, taken: usize) -> Result<usize, Refusal>
        requires { taken ≤ length self.old.elements.now }
        ensures same { SameSheet self.old self.new }
        ensures index { self.new.index ≡ self.old.index }
        ensures covers { (what : What) → CoversAs (records_of self.old.records) (cover_step (records_of self.old.records) self.old.state what width taken) result self.new.state }
    {
        let at = self.state.row * self.records.width + (self.state.column - 1);
        self.skip(width)?;
        self.state.taken = taken;
        Ok(at)
    }

    // A field; the walk ends where no element remains.
    #[inline(always)]
    fn field(&mut self, word: Packed) -> Result<Turn, Refusal>
        ensures same { SameSheet self.old self.new }
        ensures index { self.new.index ≡ self.old.index }
        ensures answers { (t : List ℕ) (f : Field ℕ) → met_in t word ≡ Met.field f → AnswersAs (records_of self.old.records) f self.old.state (field_step (records_of self.old.records) self.old.state f (drop self.old.state.taken (kinds_of self.old.elements.now))) result self.new.state }
    {
        let place = self.state.taken;
        let Some(element) = self.elements.get(place) else {
            return Ok(Turn::Ends);
        };
        let item = word.word();
        let Some(width) = field_width(item, element.value) else {
            return Err(Refusal::Kind { place });
        };
        let settings = self.state.settings;
        let at = self.cover(width, place + 1)?;
        let Word::A = item else {
            return Ok(Turn::Covers(Cover { at, word, settings }));
        };
        // A cast: the columns are at most those of a record, and `try_from` would add an arm that is never taken.
        let word = Packed::of(Word::Aw {
            width: width as u16,
        });
        Ok(Turn::Covers(Cover { at, word, settings }))
    }

    // The walk at its start.
    #[inline(always)]
    pub fn new(run: Run<'a>, elements: &'a [Element], records: Records) -> Walk<'a>
        ensures goes_by { GoesBy result run.entry elements.now records }
        ensures left { left_of result ≡ walk (given_sheet run.entry elements.now records) }
        ensures none_taken { result.state.taken ≡ 0 }
    {
        let part = run.words.get(run.back..).unwrap_or(&[]);
        Walk {
            run,
            elements,
            records,
            returns: has_field(part),
            index: 0,
            state: State {
                row: 0,
                column: 1,
                taken: 0,
                settings: Settings::START,
            },
        }
    }

    // How many elements were taken.
    #[inline(always)]
    pub fn taken(&self) -> usize
        ensures { result ≡ self.now.state.taken }
    {
        self.state.taken
    }

    // How many records were reached.
    #[inline(always)]
    pub(crate) fn reached(&self) -> usize
        ensures { result ≡ self.now.state.row + 1 }
    {
        self.state.row + 1
    }

    // The end of the format: the walk ends, or returns.
    #[inline(always)]
    fn end(&mut self) -> Result<Turn, Refusal>
        requires { length self.old.run.words.now ≤ self.old.index }
        ensures { TurnIs self.old result self.new }
    {
        let place = self.state.taken;
        if self.elements.len() <= place {
            return Ok(Turn::Ends);
        }
        if !self.returns {
            return Err(Refusal::NoField { place });
        }
        self.next_record()?;
        self.index = self.run.back;
        Ok(Turn::Moves)
    }

    // One turn: an item, or the end of the format.
    #[inline(always)]
    pub(crate) fn turn(&mut self) -> Result<Turn, Refusal>
        ensures { TurnIs self.old result self.new }
    {
        if self.run.words.len() <= self.index {
            return self.end();
        }
        let word = self.run.words[self.index];
        self.index += 1;
        match word.word() {
            Word::X { count } => self.skip(usize::from(count))?,
            Word::T { column } => self.tab(usize::from(column))?,
            Word::Slash => self.next_record()?,
            Word::Setting { item } => self.set(item),
            Word::Literal { start: _, len } => {
                let settings = self.state.settings;
                let at = self.cover(usize::from(len), self.state.taken)?;
                return Ok(Turn::Covers(Cover { at, word, settings }));
            }
            _ => return self.field(word),
        }
        Ok(Turn::Moves)
    }

    // The fields that follow each other from here on, each suited by the next element, as far as they stand in the record and the
    // slice holds them: how many. (The same as so many turns, A alone aside, but with fewer tests: most items of a sheet are such.)
    #[inline(always)]
    pub(crate) fn fields(&mut self, covers: &mut [Cover]) -> usize
        ensures few { result ≤ length covers.new }
        ensures as_fields { FieldsAs self.old self.new (take result covers.new) }
    {
        let words = self.run.words.get(self.index..).unwrap_or(&[]);
        let elements = &self.elements[self.state.taken..];
        let most = words.len().min(elements.len()).min(covers.len());
        let at = self.state.row * self.records.width + (self.state.column - 1);
        let room = self.records.width + 1 - self.state.column;
        let settings = self.state.settings;
        let mut columns: usize = 0;
        let mut count: usize = 0;
        while count < most {
            let word = words[count];
            let width = word.columns();
            if word.kind() != suited_kind(elements[count].value) || room - columns < width {
                break;
            }
            covers[count] = Cover {
                at: at + columns,
                word,
                settings,
            };
            columns += width;
            count += 1;
        }
        self.index += count;
        self.state.column += columns;
        self.state.taken += count;
        count
    }
}
