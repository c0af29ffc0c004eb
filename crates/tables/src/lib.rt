#![tactic(auto)]

ghost use Rattle.std.specs.Prelude.{◌≡◌, cond, get_or, set};
ghost use Rattle.sheet.specs.Lists.{first_cell};
ghost use Rattle.sheet.specs.Signal.{is_net, net_of, codes};
ghost use Rattle.exercise.specs.Record.{outputs};
ghost use Rattle.exercise.specs.passes.Known.{known_at};
ghost use Rattle.tables.specs.declared.Reads.«TheVariants».{Never};
ghost use Rattle.tables.specs.Records.{all_inputs};
ghost use Rattle.tables.specs.passes.Tables.{malformed_at, is_marked, with_mark, marked_twice, mark_each, double_cell, one_more, is_once, read_once, read_each, with_reader, with_driver, reads_below, readers_below, drivers_below, told_cell};

use exercise::Record;
use sheet::{CellNumber, Signal};

// How often a net is read.
#[derive(Clone, Copy)]
pub enum Reads {
    Never,
    Once,
    More,
}

// The tables by net: how often it is read, which cell reads it at cin, which cell's cout drives it.
#[derive(Clone, Copy)]
pub struct Tables<'a> {
    pub reads: &'a [Reads],
    pub readers: &'a [u16],
    pub drivers: &'a [u16],
}

// 15: the lowest cell whose record breaks the layout.
#[tactic(auto, using(sheet::proofs::Scan::scan), unfolding(crate::specs::passes::Tables::malformed_at))]
pub fn first_malformed(exercise: &[u8], nets: u16, cells: u16) -> Option<CellNumber>
    ensures { result ≡ first_cell (malformed_at nets exercise.now) cells }
{
    for i in 0..cells {
        let (Record::Combinational(_) | Record::Register(_)) = exercise::record_at(
            exercise,
            CellNumber(i),
            nets,
        ) else {
            return Some(CellNumber(i));
        };
    }
    None
}

// Marks a net as driven. Whether it was marked already.
#[tactic(auto, unfolding(crate::specs::passes::Tables::is_marked, crate::specs::passes::Tables::with_mark))]
fn mark(marks: &mut [bool], signal: Signal) -> bool
    ensures again { result ≡ is_marked marks.old signal.0 }
    ensures marked { marks.new ≡ with_mark marks.old signal.0 }
{
    if signal.is_net() {
        let net = usize::from(signal.net());
        if net < marks.len() {
            let again = marks[net];
            marks[net] = true;
            return again;
        }
    }
    false
}

// Whether a cell drives a net that is marked already, or one twice. Its nets are marked.
#[tactic(auto, unfolding(crate::specs::passes::Tables::mark_each, crate::specs::passes::Tables::marked_twice, exercise::specs::Record::outputs))]
fn drives_again(marks: &mut [bool], cell: Record) -> bool
    ensures again { result ≡ marked_twice marks.old (outputs cell) }
    ensures marked { marks.new ≡ mark_each marks.old (outputs cell) }
{
    match cell {
        Record::Combinational(c) => {
            let first = mark(marks, c.combout);
            let second = mark(marks, c.cout);
            first | second
        }
        Record::Register(c) => mark(marks, c.regout),
        Record::Malformed => false,
    }
}

// 16, in an exercise that passes 15: the lowest cell that drives a net which is driven already.
#[tactic(auto, using(crate::proofs::Steps::pass))]
pub fn first_double_driver(exercise: &[u8], cells: u16) -> Option<CellNumber>
    ensures { result ≡ double_cell (known_at exercise.now) cells }
{
    let mut marks = [false; 1024];
    for i in 0..cells {
        if drives_again(
            &mut marks,
            exercise::known_record_at(exercise, CellNumber(i)),
        ) {
            return Some(CellNumber(i));
        }
    }
    None
}

impl Reads {
    // One read more.
    fn one_more(self) -> Reads
        ensures { result ≡ one_more self }
    {
        match self {
            Reads::Never => Reads::Once,
            Reads::Once | Reads::More => Reads::More,
        }
    }
}

// Counts a read of the signal's net.
#[tactic(auto, unfolding(crate::specs::passes::Tables::read_once))]
fn note_read(reads: &mut [Reads], signal: Signal)
    ensures { reads.new ≡ read_once reads.old signal.0 }
{
    if signal.is_net() {
        let net = usize::from(signal.net());
        if net < reads.len() {
            reads[net] = reads[net].one_more();
        }
    }
}

// Counts the reads at these ports.
#[tactic(auto, unfolding(crate::specs::passes::Tables::read_each))]
fn note_ports(reads: &mut [Reads], ports: &[Signal])
    ensures { reads.new ≡ read_each reads.old (codes ports.now) }
{
    for &port in ports {
        note_read(reads, port);
    }
}

// Counts the reads at all input ports of a cell.
#[tactic(auto, unfolding(crate::specs::Records::all_inputs, crate::specs::passes::Tables::read_each))]
fn note_reads(reads: &mut [Reads], cell: Record)
    ensures { reads.new ≡ read_each reads.old (all_inputs cell) }
{
    match cell {
        Record::Combinational(c) => note_ports(reads, &[c.dataa, c.datab, c.datac, c.datad, c.cin]),
        Record::Register(c) => note_ports(
            reads,
            &[c.datain, c.clk, c.ena, c.aclr, c.sclr, c.sload, c.sdata],
        ),
        Record::Malformed => {}
    }
}

// Notes cell i at the net of a signal.
fn note_cell(table: &mut [u16], signal: Signal, i: CellNumber)
    ensures { table.new ≡ cond (is_net signal.0) (set table.old (net_of signal.0) i.0) table.old }
{
    if signal.is_net() {
        sheet::put(table, usize::from(signal.net()), i.0);
    }
}

// Notes a cell at the net that its cin reads, and at the net that its cout drives.
fn note_carry(readers: &mut [u16], drivers: &mut [u16], i: CellNumber, cell: Record)
    ensures read { readers.new ≡ with_reader readers.old i.0 cell }
    ensures driven { drivers.new ≡ with_driver drivers.old i.0 cell }
{
    let Record::Combinational(c) = cell else {
        return;
    };
    note_cell(readers, c.cin, i);
    note_cell(drivers, c.cout, i);
}

// Fills the tables by net in one pass, from an exercise that passes 15: how often a net is read, which cell reads it at cin, which cell's cout drives it.
#[tactic(auto, unfolding(crate::specs::passes::Tables::drivers_below, crate::specs::passes::Tables::readers_below, crate::specs::passes::Tables::reads_below))]
pub fn fill_tables(
    exercise: &[u8],
    cells: u16,
    reads: &mut [Reads],
    readers: &mut [u16],
    drivers: &mut [u16],
)
    ensures counted { reads.new ≡ reads_below (known_at exercise.now) reads.old cells }
    ensures read { readers.new ≡ readers_below (known_at exercise.now) readers.old cells }
    ensures driven { drivers.new ≡ drivers_below (known_at exercise.now) drivers.old cells }
{
    for i in 0..cells {
        let cell = exercise::known_record_at(exercise, CellNumber(i));
        note_reads(reads, cell);
        note_carry(readers, drivers, CellNumber(i), cell);
    }
}

// The cell that a table has at the net of a signal.
pub fn cell_for(table: &[u16], signal: Signal) -> Option<CellNumber>
    ensures { result ≡ told_cell table.now signal.0 }
{
    let net = usize::from(signal.net());
    if net < table.len() && table[net] != sheet::NONE {
        return Some(CellNumber(table[net]));
    }
    None
}

// Whether a net is read exactly once.
pub fn is_read_once(reads: &[Reads], signal: Signal) -> bool
    ensures { result ≡ is_once (get_or reads.now (net_of signal.0) Never) }
{
    let net = usize::from(signal.net());
    net < reads.len() && matches!(reads[net], Reads::Once)
}
