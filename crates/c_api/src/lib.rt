#![tactic(auto)]

ghost use Rattle.std.specs.Prelude.{◌≡◌, cond, ◌+◌, ◌*◌, length, ◌∷◌};
ghost use Rattle.sheet.specs.Refusals.{told_number};
ghost use Rattle.settings.specs.Settings.{settings_number, settings_numbers, settings_entries};
ghost use Rattle.settings.specs.House.{house_settings};
ghost use Rattle.judge.specs.Call.{call};
ghost use Rattle.judge.specs.Judge.{judged, routed, tried};
ghost use Rattle.class.specs.Class.{marked, rows_after};
ghost use Rattle.tablet_log.specs.Credited.{credited, credits_after, numbers_after};
ghost use Rattle.exercise.specs.Exercise.{exercise_number};
ghost use Rattle.answer.specs.Answer.{opening_number, place_values};
ghost use Rattle.reader.specs.Reader.{logic_cell_values, exercise_step_at, next_exercise, answer_step_at, next_answer};
ghost use Rattle.list_check.specs.ListCheck.{list_verdict};
ghost use Rattle.writer.specs.Writing.{told, buffer_after};
ghost use Rattle.writer.specs.Exercises.{netlist, exercise_sheet, exercise_refusal, packed};
ghost use Rattle.writer.specs.Answers.{placement, answer_sheet, answer_refusal};
ghost use Rattle.writer.specs.Boards.{board, settings_sheet, settings_refusal};
ghost use Rattle.c_api.specs.Told.{seven_numbers, step_told, cell_told, cell_fields, place_told, place_fields};

use answer::Place;
use class::Row;
use exercise::Cell;
use reader::{AnswerSheet, AnswerStep, ExerciseSheet, ExerciseStep, LogicCell, Sheet, Step};
use sheet::Refusal;
use tablet_log::{Credit, Filled};
use writer::CellPlace;

const NONE_FILLED: Filled = Filled {
    rows: 0,
    entries: 0,
};

// The number of a refusal, 0 where nothing is refused.
fn told<T: Copy>(outcome: Result<T, Refusal>) -> u8
    ensures { result ≡ told_number outcome }
{
    match outcome {
        Ok(_) => 0,
        Err(refusal) => refusal.number(),
    }
}

// Judges an exercise and an answer on the board of a settings sheet. Asks nothing of the contents: sheets of any bytes, a route buffer and a list of tries of
// any length. The route buffer is written where the verdict is 0, all 8,192 bytes of it, the list where it is 0 or 65, all 1,024 numbers; otherwise they are
// left as they are.
#[unsafe(no_mangle)]
pub extern "C" fn nurimkkot_judge(
    settings: &[u8],
    exercise: &[u8],
    answer: &[u8],
    route: &mut [u8],
    tries: &mut [u32],
    numbers: &mut [u64; 7],
)
    ensures routes { route.new ≡ routed (call settings.now exercise.now answer.now (length route.old) (length tries.old)) route.old }
    ensures counts { tries.new ≡ tried (call settings.now exercise.now answer.now (length route.old) (length tries.old)) tries.old }
    ensures told { numbers.new ≡ seven_numbers (judged (call settings.now exercise.now answer.now (length route.old) (length tries.old))) }
{
    let v = judge::judge_sheets(settings, exercise, answer, route, tries);
    *numbers = [
        u64::from(v.number),
        u64::from(v.cell),
        u64::from(v.lab),
        u64::from(v.apprentice),
        u64::from(v.culprit.of_answer),
        v.culprit.start as u64,
        v.culprit.size as u64,
    ];
}

// Marks the answers of a class sheet on the board of a settings sheet, one row for each. Asks nothing of the contents: sheets of any bytes, any number of
// rows. A refusal, 76 or 77, leaves the rows as they are, with none filled.
#[unsafe(no_mangle)]
pub extern "C" fn nurimkkot_mark_class(
    settings: &[u8],
    exercise: &[u8],
    class_sheet: &[u8],
    rows: &mut [Row],
    filled: &mut usize,
) -> u8
    ensures number { result ≡ (marked class_sheet.now (length rows.old)).number }
    ensures verdicts { rows.new ≡ rows_after settings.now exercise.now class_sheet.now rows.old }
    ensures counted { filled.new ≡ (marked class_sheet.now (length rows.old)).filled }
{
    let marked = class::mark_class(settings, exercise, class_sheet, rows);
    *filled = usize::from(marked.unwrap_or(0));
    told(marked)
}

// Credits the minutes of a tablet log, one row for each apprentice, and lists the numbers of the entries that cover none. Asks nothing of the contents: a log of
// any bytes, any number of rows and entry numbers. A refusal, 80 to 87, leaves both as they are, with none filled.
#[unsafe(no_mangle)]
pub extern "C" fn nurimkkot_minutes(
    log: &[u8],
    rows: &mut [Credit],
    entries: &mut [u16],
    rows_filled: &mut usize,
    entries_filled: &mut usize,
) -> u8
    ensures number { result ≡ (credited log.now (length rows.old) (length entries.old)).number }
    ensures minutes { rows.new ≡ credits_after log.now rows.old entries.old }
    ensures listed { entries.new ≡ numbers_after log.now rows.old entries.old }
    ensures people { rows_filled.new ≡ (credited log.now (length rows.old) (length entries.old)).rows }
    ensures empty { entries_filled.new ≡ (credited log.now (length rows.old) (length entries.old)).entries }
{
    let credited = credits::minutes(log, rows, entries);
    let filled = credited.unwrap_or(NONE_FILLED);
    *rows_filled = usize::from(filled.rows);
    *entries_filled = usize::from(filled.entries);
    told(credited)
}

// The number of 10 to 14 that applies to an exercise, or 0.
#[unsafe(no_mangle)]
pub extern "C" fn nurimkkot_open_exercise(exercise: &[u8]) -> u8
    ensures { result ≡ exercise_number exercise.now }
{
    told(ExerciseSheet::check(exercise))
}

// The number of 20 to 25 without 24 that applies to an answer, or 0.
#[unsafe(no_mangle)]
pub extern "C" fn nurimkkot_open_answer(answer: &[u8]) -> u8
    ensures { result ≡ opening_number answer.now }
{
    told(AnswerSheet::check(answer))
}

// Kind, flag and the eleven signals of a cell.
fn parts(cell: LogicCell) -> (u8, bool, [u16; 11])
    ensures { result.0 ∷ cond result.1 1 0 ∷ result.2 ≡ logic_cell_values cell }
{
    match cell {
        LogicCell::Combinational(c) => {
            let signals = [
                c.dataa.0,
                c.datab.0,
                c.datac.0,
                c.datad.0,
                c.cin.0,
                c.combout.0,
                c.cout.0,
                0,
                0,
                0,
                0,
            ];
            (exercise::COMBINATIONAL, c.sums_cin, signals)
        }
        LogicCell::Register(r) => {
            let signals = [
                r.datain.0, r.clk.0, r.ena.0, r.aclr.0, r.sclr.0, r.sload.0, r.sdata.0, r.regout.0,
                0, 0, 0,
            ];
            (exercise::REGISTER, false, signals)
        }
    }
}

fn cell_fields(step: ExerciseStep) -> [u16; 13]
    ensures { result ≡ cell_fields step }
{
    let Step::Record(cell) = step else {
        return [0; 13];
    };
    let (kind, flag, [a, b, c, d, e, f, g, h, i, j, k]) = parts(cell);
    [
        u16::from(kind),
        u16::from(flag),
        a,
        b,
        c,
        d,
        e,
        f,
        g,
        h,
        i,
        j,
        k,
    ]
}

// Whether a reader gave a record.
fn step_told<T: Copy>(step: Step<T>) -> u8
    ensures { result ≡ step_told step }
{
    match step {
        Step::Record(_) => 0,
        Step::Broken => 1,
        Step::End => 2,
    }
}

// The next record of an exercise, through a reader that stands at a number; the number moves on. Says 0 with the record, 1 at a record
// that breaks its layout, 2 at the end; then the number stays put.
#[unsafe(no_mangle)]
pub extern "C" fn nurimkkot_next_cell(exercise: &[u8], at: &mut u16, cell: &mut [u16; 13]) -> u8
    ensures told { result ≡ cell_told (exercise_step_at exercise.now at.old) }
    ensures fields { cell.new ≡ cell_fields (exercise_step_at exercise.now at.old) }
    ensures moved { at.new ≡ next_exercise exercise.now at.old }
{
    let step = reader::read::<ExerciseSheet>(exercise, at);
    *cell = cell_fields(step);
    step_told(step)
}

// Kind and flag as one number, the flag in its high byte.
fn packed_kind(kind: u8, flag: bool) -> u16
    ensures { result ≡ kind + 256 * cond flag 1 0 }
{
    u16::from(kind) + 256 * u16::from(flag)
}

fn packed_cell(step: ExerciseStep) -> Cell
    ensures { result ≡ packed (cell_fields step) }
{
    let Step::Record(cell) = step else {
        return [0; 12];
    };
    let (kind, flag, [a, b, c, d, e, f, g, h, i, j, k]) = parts(cell);
    [packed_kind(kind, flag), a, b, c, d, e, f, g, h, i, j, k]
}

// The same with the record as twelve numbers, which lie as C's struct does: kind and flag are the two bytes of the first.
#[unsafe(no_mangle)]
pub extern "C" fn nurimkkot_next_record(exercise: &[u8], at: &mut u16, cell: &mut Cell) -> u8
    ensures told { result ≡ cell_told (exercise_step_at exercise.now at.old) }
    ensures fields { cell.new ≡ packed (cell_fields (exercise_step_at exercise.now at.old)) }
    ensures moved { at.new ≡ next_exercise exercise.now at.old }
{
    let step = reader::read::<ExerciseSheet>(exercise, at);
    *cell = packed_cell(step);
    step_told(step)
}

fn place_numbers(p: Place) -> [u16; 3]
    ensures { result ≡ place_values p }
{
    [u16::from(p.x), u16::from(p.y), u16::from(p.le)]
}

fn place_fields(step: AnswerStep) -> [u16; 3]
    ensures { result ≡ place_fields step }
{
    match step {
        Step::Record(p) => place_numbers(p),
        Step::Broken | Step::End => [0; 3],
    }
}

// The next place of an answer, in the same way.
#[unsafe(no_mangle)]
pub extern "C" fn nurimkkot_next_place(answer: &[u8], at: &mut u16, place: &mut [u16; 3]) -> u8
    ensures told { result ≡ place_told (answer_step_at answer.now at.old) }
    ensures fields { place.new ≡ place_fields (answer_step_at answer.now at.old) }
    ensures moved { at.new ≡ next_answer answer.now at.old }
{
    let step = reader::read::<AnswerSheet>(answer, at);
    *place = place_fields(step);
    step_told(step)
}

// The check of one LAB on a lent list of its cells, on the board of a settings sheet. Asks nothing of the contents: a sheet and a list of any length.
// The eight route bytes are written whatever the number: 255 each where it is not 0.
#[unsafe(no_mangle)]
pub extern "C" fn nurimkkot_check_lab(settings: &[u8], cells: &[Cell], route: &mut [u8; 8]) -> u8
    ensures number { result ≡ (list_verdict settings.now cells.now).number }
    ensures bytes { route.new ≡ (list_verdict settings.now cells.now).bytes }
{
    let checked = list_check::check_list(settings, cells);
    *route = checked.unwrap_or([255u8; 8]);
    told(checked)
}

// The settings sheet of the board of document 01.
#[unsafe(no_mangle)]
pub extern "C" fn nurimkkot_house_settings(settings: &mut [u8; 12])
    ensures { settings.new ≡ house_settings }
{
    *settings = settings::house_settings();
}

// Reads a settings sheet: the number of 70 to 75 that applies, or 0; version, board number and entry count, and the flags of each entry, with
// zeros past the last and where the sheet is refused.
#[unsafe(no_mangle)]
pub extern "C" fn nurimkkot_read_settings(
    settings: &[u8],
    numbers: &mut [u16; 3],
    entries: &mut [u8; 8],
) -> u8
    ensures number { result ≡ settings_number settings.now }
    ensures head { numbers.new ≡ settings_numbers settings.now }
    ensures flags { entries.new ≡ settings_entries settings.now }
{
    *numbers = settings::settings_numbers(settings);
    *entries = settings::settings_entries(settings);
    told(settings::check_settings(settings))
}

// Writes the exercise sheet of so many nets and these cells, and its length. A refusal leaves the buffer as it is, with length 0.
#[unsafe(no_mangle)]
pub extern "C" fn nurimkkot_write_exercise(
    nets: u16,
    cells: &[Cell],
    sheet: &mut [u8],
    size: &mut usize,
) -> u8
    ensures number { result ≡ exercise_refusal (netlist nets cells.now) (length sheet.old) }
    ensures bytes { sheet.new ≡ buffer_after (exercise_refusal (netlist nets cells.now) (length sheet.old)) (exercise_sheet (netlist nets cells.now)) sheet.old }
    ensures sized { size.new ≡ (told (exercise_refusal (netlist nets cells.now) (length sheet.old)) (exercise_sheet (netlist nets cells.now))).length }
{
    let written = writer::write_exercise(nets, cells, sheet);
    *size = written.unwrap_or(0);
    told(written)
}

// Writes the answer sheet of an apprentice's places in the same way.
#[unsafe(no_mangle)]
pub extern "C" fn nurimkkot_write_answer(
    apprentice: u32,
    places: &[CellPlace],
    sheet: &mut [u8],
    size: &mut usize,
) -> u8
    ensures number { result ≡ answer_refusal (placement apprentice places.now) (length sheet.old) }
    ensures bytes { sheet.new ≡ buffer_after (answer_refusal (placement apprentice places.now) (length sheet.old)) (answer_sheet (placement apprentice places.now)) sheet.old }
    ensures sized { size.new ≡ (told (answer_refusal (placement apprentice places.now) (length sheet.old)) (answer_sheet (placement apprentice places.now))).length }
{
    let written = writer::write_answer(apprentice, places, sheet);
    *size = written.unwrap_or(0);
    told(written)
}

// Writes the settings sheet of a version, a board's number and the flags of its entries in the same way.
#[unsafe(no_mangle)]
pub extern "C" fn nurimkkot_write_settings(
    version: u16,
    number: u16,
    entries: &[u8],
    sheet: &mut [u8],
    size: &mut usize,
) -> u8
    ensures number { result ≡ settings_refusal (board version number entries.now) (length sheet.old) }
    ensures bytes { sheet.new ≡ buffer_after (settings_refusal (board version number entries.now) (length sheet.old)) (settings_sheet (board version number entries.now)) sheet.old }
    ensures sized { size.new ≡ (told (settings_refusal (board version number entries.now) (length sheet.old)) (settings_sheet (board version number entries.now))).length }
{
    let written = writer::write_settings(version, number, entries, sheet);
    *size = written.unwrap_or(0);
    told(written)
}
