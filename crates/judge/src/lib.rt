#![tactic(auto)]

ghost use Rattle.std.specs.Prelude.{◌≡◌, cond, ◌++◌, map, length, replicate, eqb, IfErr};
ghost use Rattle.sheet.specs.Lists.{elemb, below};
ghost use Rattle.exercise.specs.Exercise.{cell_count};
ghost use Rattle.exercise.specs.passes.Known.{known_at};
ghost use Rattle.judge.specs.Call.{call};
ghost use Rattle.judge.specs.Judge.{settings_group, exercise_group, answer_group, cell_group, checks, first_broken, judged, route_bytes, routed, tries_of, tried};
ghost use Rattle.verdict.specs.Verdicts.{legal, found, bytes_of, address_of, numbers_of};
ghost use Rattle.verdict.specs.Numbers.{searched_numbers};
ghost use Rattle.judge.specs.passes.Stages.{numbered, placed_by, cell_finding};
ghost use Rattle.judge.specs.passes.Preparing.{finding_in, prepared_for, drivers_for, found_to51, found_in_labs, rows_of_labs, tries_of_labs, found_from};
ghost use Rattle.tables.specs.passes.Tables.{drivers_below};
ghost use Rattle.sheet.specs.Checks.{NONE};
ghost use Rattle.sheet.specs.Refusals.{number_of};
ghost use Rattle.netlist.specs.passes.Numbers.{number_at};

use entries::EntryTable;
pub use sheet::NONE;
use sheet::{CellNumber, Refusal};
use tables::{Reads, Tables};
use verdict::{Broken, Finding, Verdict};

// The route buffer's length: eight bytes for each of 1,024 LABs.
pub const ROUTE_SIZE: usize = 8192;

// The length of the list of tries: a number for each of 1,024 LABs.
pub const TRIES_SIZE: usize = 1024;

// What a settings sheet and an exercise alone say of every answer: what 70 to 75 and 10 to 16 find, and what these and 30 to 44 find.
#[derive(Clone, Copy)]
pub struct Prepared {
    pub early: Finding,
    pub fixed: Finding,
}

// Refuses the cell that a run over the cells has found, where it has.
fn refuse(refusal: Refusal, cell: Option<CellNumber>) -> Result<(), Broken>
    ensures { found result ≡ cell_finding (number_of refusal) cell }
{
    match cell {
        Some(cell) => Err(Broken::Cell(refusal, cell)),
        None => Ok(()),
    }
}

// 10 to 16.
fn check_exercise(exercise: &[u8]) -> Result<(), Broken>
    ensures { found result ≡ first_broken (exercise_group exercise.now) }
{
    exercise::check_head(exercise)?;
    let nets = exercise::net_count(exercise);
    let cells = exercise::cell_count(exercise);
    refuse(
        Refusal::Malformed,
        tables::first_malformed(exercise, nets, cells),
    )?;
    refuse(
        Refusal::DoubleDriver,
        tables::first_double_driver(exercise, cells),
    )
}

// 20 to 26.
fn check_answer(exercise: &[u8], answer: &[u8]) -> Result<(), Broken>
    ensures { found result ≡ first_broken (answer_group exercise.now answer.now) }
{
    answer::check_head(answer)?;
    let cells = exercise::cell_count(exercise);
    if answer::place_count(answer) != cells {
        return Err(Broken::Sheet(Refusal::OtherCellCount));
    }
    if answer::wrong_answer_length(answer) {
        return Err(Broken::Sheet(Refusal::AnswerLength));
    }
    refuse(
        Refusal::OutOfRange,
        placing::first_out_of_range(answer, cells),
    )
}

// 30 to 44, from the tables by net.
fn check_cells_by(exercise: &[u8], cells: u16, tables: Tables) -> Result<(), Broken>
    ensures { found result ≡ numbered (number_at tables.entry.reads.now tables.entry.readers.now tables.entry.drivers.now (known_at exercise.now)) cells }
{
    let Some(i) = netlist::first_broken_cell(exercise, cells, tables) else {
        return Ok(());
    };
    let cell = exercise::known_record_at(exercise, i);
    match netlist::check_cell(cell, i, tables) {
        Ok(()) => Ok(()),
        Err(refusal) => Err(Broken::Cell(refusal, i)),
    }
}

// 50 and 51, the latter from the table of drivers.
fn check_places(exercise: &[u8], answer: &[u8], cells: u16, drivers: &[u16]) -> Result<(), Broken>
    ensures { found result ≡ placed_by drivers.now (known_at exercise.now) cells exercise.now answer.now }
{
    refuse(
        Refusal::PlaceTaken,
        clashes::first_shared(exercise, answer, cells),
    )?;
    refuse(
        Refusal::CarryNotNext,
        placing::first_detached(exercise, answer, cells, drivers),
    )
}

// 70 to 75, then 10 to 16.
#[tactic(auto, using(crate::proofs::Outcomes::err_given, crate::proofs::Preparing::early_refused, crate::proofs::Preparing::early_goes))]
fn check_early(settings: &[u8], exercise: &[u8]) -> Result<(), Broken>
    ensures { found result ≡ first_broken (settings_group settings.now ++ exercise_group exercise.now) }
{
    settings::check_settings(settings)?;
    check_exercise(exercise)
}

// 30 to 44, of an exercise that passes 10 to 16, with the table of drivers for 51.
fn check_cells(exercise: &[u8], drivers: &mut [u16]) -> Result<(), Broken>
    requires passed { (first_broken (exercise_group exercise.now)).number ≡ 0 }
    requires blank { drivers.old ≡ replicate 1024 NONE }
    ensures found { found result ≡ first_broken (cell_group exercise.now) }
    ensures filled { drivers.new ≡ drivers_below (known_at exercise.now) (replicate 1024 NONE) (cell_count exercise.now) }
{
    let cells = exercise::cell_count(exercise);
    let mut reads = [Reads::Never; 1024];
    let mut readers = [NONE; 1024];
    tables::fill_tables(exercise, cells, &mut reads, &mut readers, drivers);
    let tables = Tables {
        reads: &reads,
        readers: &readers,
        drivers,
    };
    check_cells_by(exercise, cells, tables)
}

// Prepares a settings sheet and an exercise for any number of answers. The table of drivers is written whole.
pub fn prepare(settings: &[u8], exercise: &[u8], drivers: &mut [u16; 1024]) -> Prepared
    ensures made { result ≡ prepared_for settings.now exercise.now }
    ensures filled { drivers.new ≡ drivers_for settings.now exercise.now }
{
    *drivers = [NONE; 1024];
    let outcome = check_early(settings, exercise);
    let early = Finding::of(outcome);
    if outcome.is_err() {
        return Prepared {
            early,
            fixed: early,
        };
    }
    let fixed = Finding::of(check_cells(exercise, drivers));
    Prepared { early, fixed }
}

// Hands on what was found, where it is something.
fn refuse_found(f: Finding) -> Result<(), Finding>
    ensures found { finding_in result ≡ cond (eqb f.number 0) legal f }
    ensures refused { IfErr result (λ g. g.number ≡ 0 → ⊥) }
{
    if f.number == 0 {
        return Ok(());
    }
    Err(f)
}

// 10 to 51 and 70 to 75 of an answer, from what was prepared.
fn check_to_51(
    prepared: Prepared,
    exercise: &[u8],
    drivers: &[u16],
    answer: &[u8],
) -> Result<(), Finding>
    ensures found { finding_in result ≡ found_to51 prepared drivers.now exercise.now answer.now }
    ensures refused { IfErr result (λ g. g.number ≡ 0 → ⊥) }
{
    refuse_found(prepared.early)?;
    check_answer(exercise, answer)?;
    refuse_found(prepared.fixed)?;
    let cells = exercise::cell_count(exercise);
    check_places(exercise, answer, cells, drivers)?;
    Ok(())
}

// The same of one answer alone: the cells are looked at only where the answer passes 20 to 26.
fn check_alone(settings: &[u8], exercise: &[u8], answer: &[u8]) -> Result<(), Broken>
    ensures { found result ≡ found_to51 (prepared_for settings.now exercise.now) (drivers_for settings.now exercise.now) exercise.now answer.now }
{
    check_early(settings, exercise)?;
    check_answer(exercise, answer)?;
    let mut drivers = [NONE; 1024];
    check_cells(exercise, &mut drivers)?;
    let cells = exercise::cell_count(exercise);
    check_places(exercise, answer, cells, &drivers)
}

// 60 to 65. The route bytes of the occupied LABs below the first broken one are put into the rows, their tries and its own into the list.
fn check_labs(
    table: EntryTable,
    exercise: &[u8],
    answer: &[u8],
    rows: &mut [u8; 8192],
    tries: &mut [u32; 1024],
) -> Result<(), Broken>
    ensures found { found result ≡ found_in_labs table exercise.now answer.now }
    ensures written { rows.new ≡ rows_of_labs table exercise.now answer.now rows.old }
    ensures counted { tries.new ≡ tries_of_labs table exercise.now answer.now tries.old }
{
    let cells = exercise::cell_count(exercise);
    let mut first = [NONE; 1024];
    let mut next = [NONE; 512];
    lab_pass::link_cells(answer, cells, &mut first, &mut next);
    match lab_pass::route_labs(table, exercise, &first, &next, rows, tries) {
        Ok(()) => Ok(()),
        Err(broken) => Err(Broken::Lab(broken.refusal, broken.lab)),
    }
}

// What the judge finds in an answer, from the entry table and what was prepared for its exercise. No route and no tries are written.
pub fn judge_prepared(
    table: EntryTable,
    prepared: Prepared,
    exercise: &[u8],
    drivers: &[u16],
    answer: &[u8],
) -> Finding
    ensures { result ≡ found_from table prepared drivers.now exercise.now answer.now }
{
    if let Err(f) = check_to_51(prepared, exercise, drivers, answer) {
        return f;
    }
    let mut rows = [255u8; 8192];
    let mut tries = [0u32; 1024];
    Finding::of(check_labs(table, exercise, answer, &mut rows, &mut tries))
}

// 60 to 65, with the routes and the tries.
fn judge_labs(
    table: EntryTable,
    exercise: &[u8],
    answer: &[u8],
    route: &mut [u8],
    tries: &mut [u32],
) -> Result<(), Broken>
    requires room { length route.old ≡ 8192 }
    requires slots { length tries.old ≡ 1024 }
    ensures found { found result ≡ found_in_labs table exercise.now answer.now }
    ensures written { route.new ≡ cond (eqb (found result).number 0) (rows_of_labs table exercise.now answer.now (replicate 8192 255)) route.old }
    ensures counted { tries.new ≡ cond (elemb (found result).number searched_numbers) (tries_of_labs table exercise.now answer.now (replicate 1024 0)) tries.old }
{
    let mut rows = [255u8; 8192];
    let mut counts = [0u32; 1024];
    let outcome = check_labs(table, exercise, answer, &mut rows, &mut counts);
    let found = Finding::of(outcome);
    verdict::hand_route(found.number, &rows, route);
    verdict::hand_tries(found.number, &counts, tries);
    outcome
}

// All checks but 1 and 3, with a route buffer and a list of tries of the right size, and what is written to them.
fn check_sheets(
    settings: &[u8],
    exercise: &[u8],
    answer: &[u8],
    route: &mut [u8],
    tries: &mut [u32],
) -> Result<(), Broken>
    requires room { length route.old ≡ 8192 }
    requires slots { length tries.old ≡ 1024 }
    ensures found { found result ≡ first_broken (checks (call settings.now exercise.now answer.now (length route.old) (length tries.old))) }
    ensures written { route.new ≡ cond (eqb (found result).number 0) (route_bytes (call settings.now exercise.now answer.now (length route.old) (length tries.old))) route.old }
    ensures counted { tries.new ≡ cond (elemb (found result).number searched_numbers) (map (tries_of (call settings.now exercise.now answer.now (length route.old) (length tries.old))) (below 1024)) tries.old }
{
    check_alone(settings, exercise, answer)?;
    judge_labs(
        settings::entry_table(settings),
        exercise,
        answer,
        route,
        tries,
    )
}

// All checks, in the order of document 01.
fn check_call(
    settings: &[u8],
    exercise: &[u8],
    answer: &[u8],
    route: &mut [u8],
    tries: &mut [u32],
) -> Result<(), Broken>
    ensures found { found result ≡ first_broken (checks (call settings.now exercise.now answer.now (length route.old) (length tries.old))) }
    ensures written { route.new ≡ cond (eqb (found result).number 0) (route_bytes (call settings.now exercise.now answer.now (length route.old) (length tries.old))) route.old }
    ensures counted { tries.new ≡ cond (elemb (found result).number searched_numbers) (map (tries_of (call settings.now exercise.now answer.now (length route.old) (length tries.old))) (below 1024)) tries.old }
{
    if route.len() != ROUTE_SIZE {
        return Err(Broken::Sheet(Refusal::RouteLength));
    }
    if tries.len() != TRIES_SIZE {
        return Err(Broken::Sheet(Refusal::TriesLength));
    }
    check_sheets(settings, exercise, answer, route, tries)
}

// The verdict on exercise and answer on the board of a settings sheet. The routes are written where it is legal, the tries where it is legal or 65, and
// nothing is touched otherwise.
pub fn judge_sheets(
    settings: &[u8],
    exercise: &[u8],
    answer: &[u8],
    route: &mut [u8],
    tries: &mut [u32],
) -> Verdict
    ensures verdict { result ≡ judged (call settings.now exercise.now answer.now (length route.old) (length tries.old)) }
    ensures routes { route.new ≡ routed (call settings.now exercise.now answer.now (length route.old) (length tries.old)) route.old }
    ensures counts { tries.new ≡ tried (call settings.now exercise.now answer.now (length route.old) (length tries.old)) tries.old }
{
    let outcome = check_call(settings, exercise, answer, route, tries);
    verdict::verdict_of(exercise, answer, Finding::of(outcome))
}

// The judge: hands back the culprit, and writes number, cell, LAB and apprentice, the routes and the tries.
pub fn judge<'a>(
    settings: &[u8],
    exercise: &'a [u8],
    answer: &'a [u8],
    route: &mut [u8],
    tries: &mut [u32],
    numbers: &mut [u32; 4],
) -> &'a [u8]
    ensures bytes { result.now ≡ bytes_of exercise.now answer.now (judged (call settings.now exercise.now answer.now (length route.old) (length tries.old))).culprit }
    ensures place { result.ref_ptr ≡ address_of exercise.entry.ref_ptr answer.entry.ref_ptr (judged (call settings.now exercise.now answer.now (length route.old) (length tries.old))).culprit }
    ensures routes { route.new ≡ routed (call settings.now exercise.now answer.now (length route.old) (length tries.old)) route.old }
    ensures counts { tries.new ≡ tried (call settings.now exercise.now answer.now (length route.old) (length tries.old)) tries.old }
    ensures told { numbers.new ≡ numbers_of (judged (call settings.now exercise.now answer.now (length route.old) (length tries.old))) }
{
    let v = judge_sheets(settings, exercise, answer, route, tries);
    *numbers = [
        u32::from(v.number),
        u32::from(v.cell),
        u32::from(v.lab),
        v.apprentice,
    ];
    verdict::part_of(exercise, answer, v.culprit)
}
