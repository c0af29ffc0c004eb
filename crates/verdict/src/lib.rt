#![tactic(auto)]

ghost use Rattle.std.specs.Prelude.{◌≡◌, cond, min, length, eqb};
ghost use Rattle.sheet.specs.Lists.{elemb};
ghost use Rattle.sheet.specs.Bytes.{begins_at};
ghost use Rattle.exercise.specs.Exercise.{record_start};
ghost use Rattle.answer.specs.Answer.{place_start};
ghost use Rattle.verdict.specs.declared.Broken.TheVariants.{Sheet};
ghost use Rattle.verdict.specs.Numbers.{fault_of, searched_numbers};
ghost use Rattle.verdict.specs.Verdicts.{finding_of, found, of_exercise, of_answer, apprentice_of, lowest_in, culprit_of, verdict_of, bytes_of};

use sheet::{CellNumber, NONE, Refusal};

// Where the fault of a number lies: in the call or its settings sheet (or there is none), or in that part of exercise or answer.
#[derive(Clone, Copy, PartialEq, Eq)]
pub enum Fault {
    Call,
    ExerciseHead,
    Record,
    AnswerHead,
    Place,
    Lab,
}

// Of the exercise's head.
const EXERCISE_HEAD_NUMBERS: [u8; 5] = [10, 11, 12, 13, 14];

// Of a cell's record.
const RECORD_NUMBERS: [u8; 13] = [15, 16, 30, 31, 32, 33, 34, 35, 40, 41, 42, 43, 44];

// Of the answer's head.
const ANSWER_HEAD_NUMBERS: [u8; 6] = [20, 21, 22, 23, 24, 25];

// Of a cell's place.
const PLACE_NUMBERS: [u8; 3] = [26, 50, 51];

// Of a LAB.
const LAB_NUMBERS: [u8; 6] = [60, 61, 62, 63, 64, 65];

// Those that name no apprentice.
const NAMELESS_NUMBERS: [u8; 19] = [
    1, 3, 10, 11, 12, 13, 14, 15, 16, 20, 21, 22, 23, 70, 71, 72, 73, 74, 75,
];

// Those on which the list of tries is written.
const SEARCHED_NUMBERS: [u8; 2] = [0, 65];

// What a stage finds: a number of document 01, or 0, with the cell and the LAB, or 65,535.
#[derive(Clone, Copy, PartialEq, Eq)]
pub struct Finding {
    pub number: u8,
    pub cell: u16,
    pub lab: u16,
}

// What a broken rule refuses: the call or a whole sheet, a cell, or a LAB.
#[derive(Clone, Copy, PartialEq, Eq)]
pub enum Broken {
    Sheet(Refusal),
    Cell(Refusal, CellNumber),
    Lab(Refusal, u16),
}

impl From<Refusal> for Broken {
    ghost from_gives = { λ r b. b ≡ Sheet r };

    fn from(refusal: Refusal) -> Broken {
        Broken::Sheet(refusal)
    }
}

impl From<Broken> for Finding {
    ghost from_gives = { λ b f. f ≡ finding_of b };

    fn from(broken: Broken) -> Finding {
        match broken {
            Broken::Sheet(refusal) => Finding {
                number: refusal.number(),
                cell: NONE,
                lab: NONE,
            },
            Broken::Cell(refusal, cell) => Finding {
                number: refusal.number(),
                cell: cell.0,
                lab: NONE,
            },
            Broken::Lab(refusal, lab) => Finding {
                number: refusal.number(),
                cell: NONE,
                lab,
            },
        }
    }
}

impl Finding {
    // What an outcome finds: no number, no cell and no LAB where no rule is broken.
    pub fn of(outcome: Result<(), Broken>) -> Self
        ensures { result ≡ found outcome }
    {
        match outcome {
            Ok(()) => Finding {
                number: 0,
                cell: NONE,
                lab: NONE,
            },
            Err(broken) => Finding::from(broken),
        }
    }
}

// A part of the exercise or of the answer.
#[derive(Clone, Copy, PartialEq, Eq)]
pub struct Part {
    pub of_answer: bool,
    pub start: usize,
    pub size: usize,
}

impl Part {
    fn of_exercise(start: usize, size: usize) -> Self
        ensures { result ≡ of_exercise start size }
    {
        Part {
            of_answer: false,
            start,
            size,
        }
    }

    fn of_answer(start: usize, size: usize) -> Self
        ensures { result ≡ of_answer start size }
    {
        Part {
            of_answer: true,
            start,
            size,
        }
    }
}

// The verdict: the culprit is a part of the exercise or of the answer.
#[derive(Clone, Copy, PartialEq, Eq)]
pub struct Verdict {
    pub number: u8,
    pub cell: u16,
    pub lab: u16,
    pub apprentice: u32,
    pub culprit: Part,
}

// The apprentice: 0 for 1 to 23 (3 is among these) and 70 to 75, else the answer sheet's.
#[tactic(auto, unfolding(crate::specs::Verdicts::apprentice_of))]
pub fn apprentice_for(answer: &[u8], number: u8) -> u32
    ensures { result ≡ apprentice_of answer.now number }
{
    if NAMELESS_NUMBERS.contains(&number) {
        return 0;
    }
    answer::apprentice(answer)
}

// The lowest cell that the answer puts into a LAB.
fn lowest_in(answer: &[u8], cells: u16, lab: u16) -> u16
    ensures { result ≡ lowest_in answer.now cells lab }
{
    for i in 0..cells {
        if placing::lab_of(answer, CellNumber(i)) == lab {
            return i;
        }
    }
    NONE
}

fn record_of(cell: CellNumber) -> Part
    ensures { result ≡ of_exercise (record_start cell.0) 24 }
{
    Part::of_exercise(exercise::record_start(cell), exercise::RECORD_SIZE)
}

fn place_of(cell: CellNumber) -> Part
    ensures { result ≡ of_answer (place_start cell.0) 4 }
{
    Part::of_answer(answer::place_start(cell), answer::PLACE_SIZE)
}

// Where the fault of a number lies.
#[tactic(auto, unfolding(crate::specs::Numbers::fault_of))]
fn fault_of(number: u8) -> Fault
    ensures { result ≡ fault_of number }
{
    if EXERCISE_HEAD_NUMBERS.contains(&number) {
        return Fault::ExerciseHead;
    }
    if RECORD_NUMBERS.contains(&number) {
        return Fault::Record;
    }
    if ANSWER_HEAD_NUMBERS.contains(&number) {
        return Fault::AnswerHead;
    }
    if PLACE_NUMBERS.contains(&number) {
        return Fault::Place;
    }
    if LAB_NUMBERS.contains(&number) {
        return Fault::Lab;
    }
    Fault::Call
}

// The culprit of a finding, a part of the sheet at fault.
fn culprit_of(exercise: &[u8], answer: &[u8], f: Finding) -> Part
    ensures { result ≡ culprit_of exercise.now answer.now f }
{
    match fault_of(f.number) {
        Fault::Call => Part::of_answer(answer.len(), 0),
        Fault::ExerciseHead => {
            Part::of_exercise(0, exercise::EXERCISE_HEADER.min(exercise.len()))
        }
        Fault::Record => record_of(CellNumber(f.cell)),
        Fault::AnswerHead => Part::of_answer(0, answer::ANSWER_HEADER.min(answer.len())),
        Fault::Place => place_of(CellNumber(f.cell)),
        Fault::Lab => {
            let cells = exercise::cell_count(exercise);
            place_of(CellNumber(lowest_in(answer, cells, f.lab)))
        }
    }
}

// The verdict of a finding.
pub fn verdict_of(exercise: &[u8], answer: &[u8], f: Finding) -> Verdict
    ensures { result ≡ verdict_of exercise.now answer.now f }
{
    let apprentice = apprentice_for(answer, f.number);
    let culprit = culprit_of(exercise, answer, f);
    Verdict {
        number: f.number,
        cell: f.cell,
        lab: f.lab,
        apprentice,
        culprit,
    }
}

// The part of the sheets that a Part names.
#[tactic(auto, unfolding(crate::specs::Verdicts::bytes_of))]
pub fn part_of<'a>(exercise: &'a [u8], answer: &'a [u8], p: Part) -> &'a [u8]
    ensures bytes { result.now ≡ bytes_of exercise.now answer.now p }
    ensures place { result.ref_ptr ≡ cond p.of_answer (begins_at answer.entry.ref_ptr (min p.start (length answer.now))) (begins_at exercise.entry.ref_ptr (min p.start (length exercise.now))) }
{
    let start = p.start;
    let size = p.size;
    if p.of_answer {
        return sheet::part(answer, start, size);
    }
    sheet::part(exercise, start, size)
}

// Hands a list over where that is asked for, into one of its length.
fn hand<T: Copy>(asked: bool, from: &[T], to: &mut [T])
    ensures { to.new ≡ cond (eqb (length from.now) (length to.old)) (cond asked from.now to.old) to.old }
{
    if from.len() != to.len() {
        return;
    }
    if asked {
        to.copy_from_slice(from);
    }
}

// The routes are written where nothing is broken, into a buffer of their length.
pub fn hand_route(number: u8, rows: &[u8], route: &mut [u8])
    ensures { route.new ≡ cond (eqb (length rows.now) (length route.old)) (cond (eqb number 0) rows.now route.old) route.old }
{
    hand(number == 0, rows, route);
}

// The tries are written where nothing is broken, or 65, into a list of their length.
pub fn hand_tries(number: u8, counts: &[u32], tries: &mut [u32])
    ensures { tries.new ≡ cond (eqb (length counts.now) (length tries.old)) (cond (elemb number searched_numbers) counts.now tries.old) tries.old }
{
    hand(SEARCHED_NUMBERS.contains(&number), counts, tries);
}
