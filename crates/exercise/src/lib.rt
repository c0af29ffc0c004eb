#![tactic(auto)]

ghost use Rattle.std.specs.Prelude.{◌≡◌, cond, [], ◌<◌, min, length};
ghost use Rattle.sheet.specs.Bytes.{begins_at};
ghost use Rattle.sheet.specs.Refusals.{told_number};
ghost use Rattle.sheet.specs.Signal.{connected};
ghost use Rattle.exercise.specs.Exercise.{over_limit, wrong_exercise_length, net_count, cell_count, exercise_number, record_start, record_part};
ghost use Rattle.exercise.specs.Record.{code_at, signal_at, combinational_of, register_of, bad_combinational, bad_register, bad_tail, keeps_combinational, keeps_register, record_of, record_at, record_number, record_values, breaks_layout, record_fields};
ghost use Rattle.exercise.specs.declared.Record.TheVariants.{Combinational, Register, Malformed};
ghost use Rattle.exercise.specs.passes.Known.{known_of, known_at};

use sheet::{CellNumber, Refusal, Signal};

// Limits of document 01.
pub const MAX_NETS: u16 = 1024;

pub const MAX_CELLS: u16 = 512;

// The header: where its numbers stand, and its size.
pub const NETS_AT: usize = 5;

pub const CELLS_AT: usize = 7;

pub const EXERCISE_HEADER: usize = 9;

pub const RECORD_SIZE: usize = 24;

// The kinds of a cell.
pub const COMBINATIONAL: u8 = 1;

pub const REGISTER: u8 = 2;

// A cell as a caller gives it, in the order of its record: kind and flag, the low and the high byte of the first number, then eleven signals.
pub const CELL_NUMBERS: usize = 12;

pub type Cell = [u16; CELL_NUMBERS];

// A combinational cell: sums_cin says sum_lutc_input = cin.
#[derive(Clone, Copy)]
pub struct CombinationalCell {
    pub sums_cin: bool,
    pub dataa: Signal,
    pub datab: Signal,
    pub datac: Signal,
    pub datad: Signal,
    pub cin: Signal,
    pub combout: Signal,
    pub cout: Signal,
}

#[derive(Clone, Copy)]
pub struct RegisterCell {
    pub datain: Signal,
    pub clk: Signal,
    pub ena: Signal,
    pub aclr: Signal,
    pub sclr: Signal,
    pub sload: Signal,
    pub sdata: Signal,
    pub regout: Signal,
}

// What a cell's record says.
#[derive(Clone, Copy)]
pub enum Record {
    Combinational(CombinationalCell),
    Register(RegisterCell),
    Malformed,
}

// The exercise's number of nets.
pub fn net_count(exercise: &[u8]) -> u16
    ensures { result ≡ net_count exercise.now }
{
    sheet::u16_at(exercise, NETS_AT)
}

// The exercise's number of cells.
pub fn cell_count(exercise: &[u8]) -> u16
    ensures { result ≡ cell_count exercise.now }
{
    sheet::u16_at(exercise, CELLS_AT)
}

#[tactic(auto, unfolding(crate::specs::Exercise::over_limit))]
fn over_limit(exercise: &[u8]) -> bool
    ensures { result ≡ over_limit exercise.now }
{
    let nets = MAX_NETS < net_count(exercise);
    let cells = MAX_CELLS < cell_count(exercise);
    nets | cells
}

#[tactic(auto, unfolding(crate::specs::Exercise::wrong_exercise_length))]
fn wrong_exercise_length(exercise: &[u8]) -> bool
    ensures { result ≡ wrong_exercise_length exercise.now }
{
    exercise.len() != EXERCISE_HEADER + RECORD_SIZE * usize::from(cell_count(exercise))
}

// 10 to 14 of an exercise.
#[tactic(auto, unfolding(crate::specs::Exercise::exercise_number))]
pub fn check_head(exercise: &[u8]) -> Result<(), Refusal>
    ensures { told_number result ≡ exercise_number exercise.now }
{
    if exercise.len() < EXERCISE_HEADER {
        return Err(Refusal::ExerciseShort);
    }
    if sheet::wrong_mark(exercise, b'E') {
        return Err(Refusal::ExerciseMark);
    }
    if sheet::wrong_version(exercise) {
        return Err(Refusal::ExerciseVersion);
    }
    if over_limit(exercise) {
        return Err(Refusal::OverLimit);
    }
    if wrong_exercise_length(exercise) {
        return Err(Refusal::ExerciseLength);
    }
    Ok(())
}

// Signal j of a record.
fn signal_at(bytes: &[u8; RECORD_SIZE], j: usize) -> Signal
    requires { j < 11 }
    ensures { result ≡ signal_at bytes.now j }
{
    let at = 2 + 2 * j;
    Signal(sheet::u16_of(bytes[at], bytes[at + 1]))
}

fn combinational_of(bytes: &[u8; RECORD_SIZE]) -> CombinationalCell
    ensures { result ≡ combinational_of bytes.now }
{
    CombinationalCell {
        sums_cin: bytes[1] == 1,
        dataa: signal_at(bytes, 0),
        datab: signal_at(bytes, 1),
        datac: signal_at(bytes, 2),
        datad: signal_at(bytes, 3),
        cin: signal_at(bytes, 4),
        combout: signal_at(bytes, 5),
        cout: signal_at(bytes, 6),
    }
}

fn register_of(bytes: &[u8; RECORD_SIZE]) -> RegisterCell
    ensures { result ≡ register_of bytes.now }
{
    RegisterCell {
        datain: signal_at(bytes, 0),
        clk: signal_at(bytes, 1),
        ena: signal_at(bytes, 2),
        aclr: signal_at(bytes, 3),
        sclr: signal_at(bytes, 4),
        sload: signal_at(bytes, 5),
        sdata: signal_at(bytes, 6),
        regout: signal_at(bytes, 7),
    }
}

// Whether a signal of the cell is bad, at an input or at an output.
#[tactic(auto, unfolding(crate::specs::Record::bad_combinational))]
fn bad_combinational(cell: CombinationalCell, nets: u16) -> bool
    ensures { result ≡ bad_combinational nets cell }
{
    cell.dataa.is_bad(nets)
        | cell.datab.is_bad(nets)
        | cell.datac.is_bad(nets)
        | cell.datad.is_bad(nets)
        | cell.cin.is_bad(nets)
        | cell.combout.is_bad_output(nets)
        | cell.cout.is_bad_output(nets)
}

#[tactic(auto, unfolding(crate::specs::Record::bad_register))]
fn bad_register(cell: RegisterCell, nets: u16) -> bool
    ensures { result ≡ bad_register nets cell }
{
    cell.datain.is_bad(nets)
        | cell.clk.is_bad(nets)
        | cell.ena.is_bad(nets)
        | cell.aclr.is_bad(nets)
        | cell.sclr.is_bad(nets)
        | cell.sload.is_bad(nets)
        | cell.sdata.is_bad(nets)
        | cell.regout.is_bad_output(nets)
}

// Whether signal j of a record is not zero.
fn connected_at(bytes: &[u8; RECORD_SIZE], j: usize) -> bool
    requires { j < 11 }
    ensures { result ≡ connected (code_at bytes.now j) }
{
    signal_at(bytes, j).is_connected()
}

// Whether one of the last three signals, which no kind uses, is not zero.
#[tactic(auto, unfolding(crate::specs::Record::bad_tail))]
fn bad_tail(bytes: &[u8; RECORD_SIZE]) -> bool
    ensures { result ≡ bad_tail bytes.now }
{
    connected_at(bytes, 8) | connected_at(bytes, 9) | connected_at(bytes, 10)
}

// What a record of kind 1 says.
#[tactic(auto, unfolding(crate::specs::Record::keeps_combinational))]
fn combinational_record(bytes: &[u8; RECORD_SIZE], nets: u16) -> Record
    ensures { result ≡ cond (keeps_combinational nets bytes.now) (Combinational (combinational_of bytes.now)) Malformed }
{
    let cell = combinational_of(bytes);
    let over = 1 < bytes[1];
    if over | bad_combinational(cell, nets) | connected_at(bytes, 7) | bad_tail(bytes) {
        return Record::Malformed;
    }
    Record::Combinational(cell)
}

// What a record of kind 2 says.
#[tactic(auto, unfolding(crate::specs::Record::keeps_register))]
fn register_record(bytes: &[u8; RECORD_SIZE], nets: u16) -> Record
    ensures { result ≡ cond (keeps_register nets bytes.now) (Register (register_of bytes.now)) Malformed }
{
    let cell = register_of(bytes);
    let over = 0 < bytes[1];
    if over | bad_register(cell, nets) | bad_tail(bytes) {
        return Record::Malformed;
    }
    Record::Register(cell)
}

// What a record says, in an exercise with so many nets. A part that is not 24 bytes long is malformed.
#[tactic(auto, unfolding(crate::specs::Record::record_of))]
pub fn decode_record(bytes: &[u8], nets: u16) -> Record
    ensures says { result ≡ record_of nets bytes.now }
    ensures number { record_number result ≡ cond (breaks_layout nets bytes.now) 15 0 }
    ensures values { record_values result ≡ cond (breaks_layout nets bytes.now) [] (record_fields bytes.now) }
{
    let Ok(bytes) = <&[u8; RECORD_SIZE]>::try_from(bytes) else {
        return Record::Malformed;
    };
    match bytes[0] {
        COMBINATIONAL => combinational_record(bytes, nets),
        REGISTER => register_record(bytes, nets),
        _ => Record::Malformed,
    }
}

// Where a cell's record begins.
pub fn record_start(cell: CellNumber) -> usize
    ensures { result ≡ record_start cell.0 }
{
    EXERCISE_HEADER + RECORD_SIZE * usize::from(cell.0)
}

// The part of the exercise that is a cell's record.
pub fn record_part(exercise: &[u8], cell: CellNumber) -> &[u8]
    ensures bytes { result.now ≡ record_part exercise.now cell.0 }
    ensures place { result.ref_ptr ≡ begins_at exercise.entry.ref_ptr (min (record_start cell.0) (length exercise.now)) }
{
    sheet::part(exercise, record_start(cell), RECORD_SIZE)
}

// What the record of a cell says.
#[tactic(auto, unfolding(crate::specs::Record::record_at))]
pub fn record_at(exercise: &[u8], cell: CellNumber, nets: u16) -> Record
    ensures says { result ≡ record_at nets exercise.now cell.0 }
    ensures number { record_number result ≡ cond (breaks_layout nets (record_part exercise.now cell.0)) 15 0 }
    ensures values { record_values result ≡ cond (breaks_layout nets (record_part exercise.now cell.0)) [] (record_fields (record_part exercise.now cell.0)) }
{
    decode_record(record_part(exercise, cell), nets)
}

// What a record says that keeps the layout: nothing but its kind is tested.
#[tactic(auto, unfolding(crate::specs::passes::Known::known_of))]
fn decode_known(bytes: &[u8]) -> Record
    ensures { result ≡ known_of bytes.now }
{
    let Ok(bytes) = <&[u8; RECORD_SIZE]>::try_from(bytes) else {
        return Record::Malformed;
    };
    if bytes[0] == COMBINATIONAL {
        return Record::Combinational(combinational_of(bytes));
    }
    Record::Register(register_of(bytes))
}

// What the record of a cell says, in an exercise that passes 15; of any other it says what nobody asks.
#[tactic(auto, unfolding(crate::specs::passes::Known::known_at))]
pub fn known_record_at(exercise: &[u8], cell: CellNumber) -> Record
    ensures { result ≡ known_at exercise.now cell.0 }
{
    decode_known(record_part(exercise, cell))
}
