#![tactic(auto)]

ghost use Rattle.std.specs.Prelude.{◌≡◌, map, ◌+◌, ◌<◌, ◌≤◌, ◌^◌, length, ltb};
ghost use Rattle.std.proofs.lemmas.List.Edits.{sets};
ghost use Rattle.sheet.specs.Lists.{below};
ghost use Rattle.sheet.specs.Bytes.{u16_at, part_at};
ghost use Rattle.sheet.specs.Refusals.{told_number};
ghost use Rattle.class.specs.Class.{answer_count, wrong_lengths, answer_of, refusal, marked, marked_from, rows_after, MOST};
ghost use Rattle.class.specs.passes.Rows.{row_from};

use entries::EntryTable;
use judge::Prepared;
use sheet::Refusal;

// A class sheet has at most so many answers.
pub const MAX_ANSWERS: u16 = 32;

// The head: where the number of answers stands, and its size.
const ANSWERS_AT: usize = 5;

const HEADER: usize = 7;

// Number, cell, LAB and apprentice of a verdict.
pub type Row = [u32; 4];

// An exercise on a board, prepared for any number of answers.
#[derive(Clone, Copy)]
struct Bench<'a> {
    table: EntryTable,
    prepared: Prepared,
    exercise: &'a [u8],
    drivers: &'a [u16],
}

impl Bench<'_> {
    // The row of an answer.
    #[tactic(auto, unfolding(crate::specs::passes::Rows::row_from))]
    fn row_of(self, answer: &[u8]) -> Row
        ensures { result ≡ row_from self.entry.table self.entry.prepared self.entry.drivers.now self.entry.exercise.now answer.now }
    {
        let f = judge::judge_prepared(
            self.table,
            self.prepared,
            self.exercise,
            self.drivers,
            answer,
        );
        let apprentice = verdict::apprentice_for(answer, f.number);
        [
            u32::from(f.number),
            u32::from(f.cell),
            u32::from(f.lab),
            apprentice,
        ]
    }
}

// How many answers the head says.
fn answer_count(class: &[u8]) -> u16
    ensures { result ≡ answer_count class.now }
{
    sheet::u16_at(class, ANSWERS_AT)
}

fn too_many_answers(class: &[u8]) -> bool
    ensures { result ≡ ltb MOST (answer_count class.now) }
{
    MAX_ANSWERS < answer_count(class)
}

// Where the answer ends whose length stands at a place.
fn end_of(class: &[u8], at: usize) -> usize
    requires { at < 2 ^ 40 }
    ensures end { result ≡ at + 2 + u16_at class.now at }
    ensures most { result ≤ at + 65537 }
{
    at + 2 + usize::from(sheet::u16_at(class, at))
}

// The answer whose length stands at a place.
fn answer_at(class: &[u8], at: usize) -> &[u8]
    requires { at < 2 ^ 40 }
    ensures { result.now ≡ part_at class.now (at + 2) (u16_at class.now at) }
{
    sheet::part(class, at + 2, usize::from(sheet::u16_at(class, at)))
}

// Whether the last answer ends elsewhere than the sheet.
fn wrong_lengths(class: &[u8]) -> bool
    ensures { result ≡ wrong_lengths class.now }
{
    let mut at = HEADER;
    for _i in 0..answer_count(class) {
        at = end_of(class, at);
    }
    at != class.len()
}

fn too_few_rows(class: &[u8], rows: usize) -> bool
    ensures { result ≡ ltb rows (answer_count class.now) }
{
    rows < usize::from(answer_count(class))
}

// 76 or 77.
#[tactic(auto, unfolding(crate::specs::Class::refusal))]
fn check_class(class: &[u8], rows: usize) -> Result<(), Refusal>
    ensures { told_number result ≡ refusal class.now rows }
{
    if class.len() < HEADER
        || sheet::wrong_mark(class, b'C')
        || sheet::wrong_version(class)
        || too_many_answers(class)
        || wrong_lengths(class)
    {
        return Err(Refusal::BadClassSheet);
    }
    if too_few_rows(class, rows) {
        return Err(Refusal::TooFewRows);
    }
    Ok(())
}

// Stores the rows of the first answers, so many.
fn put_rows(bench: Bench, class: &[u8], count: u16, rows: &mut [Row])
    ensures { rows.new ≡ sets rows.old 0 (map (λ i. row_from bench.entry.table bench.entry.prepared bench.entry.drivers.now bench.entry.exercise.now (answer_of class.now i)) (below count)) }
{
    let mut at = HEADER;
    for i in 0..count {
        let answer = answer_at(class, at);
        sheet::put(rows, usize::from(i), bench.row_of(answer));
        at = end_of(class, at);
    }
}

// Marks the answers of a class sheet, one row for each, and says how many; a refusal leaves the rows as they were.
pub fn mark_class(
    settings: &[u8],
    exercise: &[u8],
    class: &[u8],
    rows: &mut [Row],
) -> Result<u16, Refusal>
    ensures told { marked_from result ≡ marked class.now (length rows.old) }
    ensures written { rows.new ≡ rows_after settings.now exercise.now class.now rows.old }
{
    check_class(class, rows.len())?;
    let mut drivers = [sheet::NONE; 1024];
    let prepared = judge::prepare(settings, exercise, &mut drivers);
    let bench = Bench {
        table: settings::entry_table(settings),
        prepared,
        exercise,
        drivers: &drivers,
    };
    let filled = answer_count(class);
    put_rows(bench, class, filled, rows);
    Ok(filled)
}
