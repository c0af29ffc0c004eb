#![tactic(auto)]

ghost use Rattle.std.specs.Prelude.{◌≡◌};
ghost use Rattle.exercise.specs.Record.{record_bytes};
ghost use Rattle.lab_rules.specs.Rules.{lab_result_from};
ghost use Rattle.list_check.specs.ListCheck.{record_from, unfit, list_verdict};
ghost use Rattle.list_check.specs.passes.Fit.{fit_record};

use distinct::LabMarks;
use exercise::{Cell, Record};
use lab_rules::Counts;
use sheet::Refusal;

// A list of more cells is no LAB's.
const MAX_CELLS: usize = 32;

// The 24 bytes of a record.
#[tactic(auto, using(crate::proofs::Bytes::put_goes), unfolding(exercise::specs::Record::record_bytes))]
fn bytes_of(cell: Cell) -> [u8; 24]
    ensures { result ≡ record_bytes cell }
{
    let mut bytes = [0; 24];
    for (j, &n) in cell.iter().enumerate() {
        bytes[2 * j..2 * j + 2].copy_from_slice(&sheet::u16_bytes(n));
    }
    bytes
}

// What a record says, at 1,024 nets.
#[tactic(auto, unfolding(crate::specs::ListCheck::record_from))]
fn record_from(cell: Cell) -> Record
    ensures { result ≡ record_from cell }
{
    exercise::decode_record(&bytes_of(cell), exercise::MAX_NETS)
}

// Whether a record breaks the layout or one of 30 to 35.
#[tactic(auto, using(sheet::proofs::Refusals::refused_number), unfolding(crate::specs::ListCheck::unfit))]
fn is_unfit(cell: Record) -> bool
    ensures { result ≡ unfit cell }
{
    match cell {
        Record::Combinational(_) => false,
        Record::Register(c) => netlist::check_register(c).is_err(),
        Record::Malformed => true,
    }
}

// What a record says that is fit.
#[tactic(auto, unfolding(crate::specs::passes::Fit::fit_record))]
fn fit_record(cell: Cell) -> Result<Record, Refusal>
    ensures { result ≡ fit_record cell }
{
    let record = record_from(cell);
    if is_unfit(record) {
        return Err(Refusal::UnfitList);
    }
    Ok(record)
}

// The check of one LAB on a lent list of its cells, on the board of a settings sheet: 18 for over 32 of them or an unfit one, else 70 to 75 of the
// sheet, else the lowest broken of 60 to 65, or the LAB's eight route bytes.
#[tactic(auto, using(crate::proofs::Taken::too_long, crate::proofs::Taken::take_stops, crate::proofs::Taken::settings_stop, crate::proofs::Taken::list_ends))]
pub fn check_list(settings: &[u8], cells: &[Cell]) -> Result<[u8; 8], Refusal>
    ensures { lab_result_from result ≡ list_verdict settings.now cells.now }
{
    if MAX_CELLS < cells.len() {
        return Err(Refusal::UnfitList);
    }
    let lab = LabMarks { read: 1, driven: 2 };
    let mut marks = [0; 1024];
    let mut nets = 0;
    let mut counts = Counts::none();
    for &cell in cells {
        let record = fit_record(cell)?;
        nets = lab_nets::mark_cell(&mut marks, lab, nets, record);
        counts = counts.with(record);
    }
    settings::check_settings(settings)?;
    lab_rules::lab_result(settings::entry_table(settings), counts, nets)
}
