#![tactic(auto)]

ghost use Rattle.std.specs.Prelude.{◌≡◌, ℕ, List, Option};
ghost use Rattle.sheet.specs.Refusals.{told_number};
ghost use Rattle.exercise.specs.Exercise.{cell_count, exercise_number};
ghost use Rattle.answer.specs.Answer.{place_count, opening_number, placed_at};
ghost use Rattle.reader.specs.Reader.{step_at, next_at, logic_cell_at, step_number, step_values, exercise_step_at, exercise_number_at, exercise_values_at, place_step_number, place_step_values, answer_step_at, answer_number_at, answer_values_at};

use answer::Place;
use exercise::{CombinationalCell, RegisterCell};
use sheet::{CellNumber, Refusal};
use std::marker::PhantomData;

// A cell whose record keeps its layout.
#[derive(Clone, Copy)]
pub enum LogicCell {
    Combinational(CombinationalCell),
    Register(RegisterCell),
}

// What a reader gives: the next record, or that it breaks its layout, or that there is none.
#[derive(Clone, Copy)]
pub enum Step<T> {
    Record(T),
    Broken,
    End,
}

pub type ExerciseStep = Step<LogicCell>;

pub type AnswerStep = Step<Place>;

// A kind of sheet that holds records.
pub trait Sheet {
    type Record: Copy;

    // The number that it is refused with, how many records it has, and what each says, none where it breaks its layout.
    ghost refused: { List ℕ → ℕ };

    ghost count: { List ℕ → ℕ };

    ghost says: { List ℕ → ℕ → Option Self.Record };

    fn check(sheet: &[u8]) -> Result<(), Refusal>
        ensures { told_number result ≡ refused sheet.now };

    fn count(sheet: &[u8]) -> u16
        ensures { result ≡ count sheet.now };

    fn record_at(sheet: &[u8], at: u16) -> Option<Self::Record>
        ensures { result ≡ says sheet.now at };
}

// An exercise: 10 to 14, and its cells.
pub struct ExerciseSheet;

impl Sheet for ExerciseSheet {
    type Record = LogicCell;

    ghost refused = { exercise_number };

    ghost count = { cell_count };

    ghost says = { logic_cell_at };

    fn check(sheet: &[u8]) -> Result<(), Refusal> {
        exercise::check_head(sheet)
    }

    fn count(sheet: &[u8]) -> u16 {
        exercise::cell_count(sheet)
    }

    fn record_at(sheet: &[u8], at: u16) -> Option<LogicCell> {
        let nets = exercise::net_count(sheet);
        match exercise::record_at(sheet, CellNumber(at), nets) {
            exercise::Record::Combinational(cell) => Some(LogicCell::Combinational(cell)),
            exercise::Record::Register(cell) => Some(LogicCell::Register(cell)),
            exercise::Record::Malformed => None,
        }
    }
}

// An answer: 20 to 25 without 24, and its places.
pub struct AnswerSheet;

impl Sheet for AnswerSheet {
    type Record = Place;

    ghost refused = { opening_number };

    ghost count = { place_count };

    ghost says = { placed_at };

    fn check(sheet: &[u8]) -> Result<(), Refusal> {
        answer::check_opening(sheet)
    }

    fn count(sheet: &[u8]) -> u16 {
        answer::place_count(sheet)
    }

    fn record_at(sheet: &[u8], at: u16) -> Option<Place> {
        answer::place_at(sheet, CellNumber(at))
    }
}

// A sheet, and the number of the record that comes next. Its functions are thin: the work is done on the slice and the number.
#[derive(Drop)]
pub struct Reader<'a, S> {
    pub sheet: &'a [u8],
    pub at: u16,
    pub kind: PhantomData<S>,
}

pub type ExerciseReader<'a> = Reader<'a, ExerciseSheet>;

pub type AnswerReader<'a> = Reader<'a, AnswerSheet>;

impl<'a, S: Sheet> Reader<'a, S> {
    // A reader before its first record, and what the sheet is refused for.
    pub fn open(sheet: &'a [u8]) -> (Self, Result<(), Refusal>)
        ensures reader { (result.0.sheet ≡ sheet.entry) × (result.0.at ≡ 0) }
        ensures refusal { told_number result.1 ≡ S.refused sheet.now }
    {
        let reader = Reader {
            sheet,
            at: 0,
            kind: PhantomData,
        };
        (reader, S::check(sheet))
    }

    // Gives the next record and moves on. At the end, and at a record that breaks its layout, it says so and stays put.
    pub fn next(&mut self) -> Step<S::Record>
        ensures given { result ≡ step_at S.count S.says self.old.sheet.now self.old.at }
        ensures moved { (self.new.sheet ≡ self.old.sheet) × (self.new.at ≡ next_at S.count S.says self.old.sheet.now self.old.at) }
    {
        let (step, next) = read_at::<S>(self.sheet, self.at);
        self.at = next;
        step
    }
}

// Reads one record through a reader that stands at a number, and moves the number on.
pub fn read<S: Sheet>(sheet: &[u8], at: &mut u16) -> Step<S::Record>
    ensures given { result ≡ step_at S.count S.says sheet.now at.old }
    ensures moved { at.new ≡ next_at S.count S.says sheet.now at.old }
{
    let mut reader = Reader::<S> {
        sheet,
        at: *at,
        kind: PhantomData,
    };
    let step = reader.next();
    *at = reader.at;
    step
}

// What stands at a number, and the number of the record to be read after it: the same at the end, and at a record that breaks its layout.
#[tactic(auto, unfolding(crate::specs::Reader::step_at, crate::specs::Reader::next_at))]
pub fn read_at<S: Sheet>(sheet: &[u8], at: u16) -> (Step<S::Record>, u16)
    ensures given { result.0 ≡ step_at S.count S.says sheet.now at }
    ensures moved { result.1 ≡ next_at S.count S.says sheet.now at }
{
    if S::count(sheet) <= at {
        return (Step::End, at);
    }
    match S::record_at(sheet, at) {
        Some(record) => (Step::Record(record), at + 1),
        None => (Step::Broken, at),
    }
}

// What stands at a number in an exercise.
#[tactic(auto, unfolding(crate::specs::Reader::step_at, crate::specs::Reader::exercise_number_at, crate::specs::Reader::exercise_values_at))]
pub fn exercise_step(exercise: &[u8], at: u16) -> ExerciseStep
    ensures says { result ≡ exercise_step_at exercise.now at }
    ensures number { step_number result ≡ exercise_number_at exercise.now at }
    ensures values { step_values result ≡ exercise_values_at exercise.now at }
{
    read_at::<ExerciseSheet>(exercise, at).0
}

// What stands at a number in an answer.
#[tactic(auto, unfolding(crate::specs::Reader::step_at, crate::specs::Reader::answer_number_at, crate::specs::Reader::answer_values_at))]
pub fn answer_step(answer: &[u8], at: u16) -> AnswerStep
    ensures says { result ≡ answer_step_at answer.now at }
    ensures number { place_step_number result ≡ answer_number_at answer.now at }
    ensures values { place_step_values result ≡ answer_values_at answer.now at }
{
    read_at::<AnswerSheet>(answer, at).0
}
