#![tactic(auto)]

ghost use Rattle.std.specs.Prelude.{◌≡◌, [], ◌∷◌, map};
ghost use Rattle.distinct.specs.passes.Marks.{reads, drives, marking, mark_all};
ghost use Rattle.sheet.specs.Signal.{codes};
ghost use Rattle.lab_nets.specs.NetsIn.{nets_at};
ghost use Rattle.lab_nets.specs.passes.Uses.{uses_of};

use distinct::LabMarks;
use exercise::Record;
use sheet::Signal;

// Marks the nets of signals as read. Gives the count of nets marked as read, as all functions here do.
fn mark_inputs<const N: usize>(
    marks: &mut [u16],
    lab: LabMarks,
    mut count: u16,
    signals: [Signal; N],
) -> u16
    ensures { marking marks.new result ≡ mark_all lab (marking marks.old count) (map reads (nets_at (codes signals.entry))) }
{
    for signal in signals {
        if signal.is_net() {
            count = distinct::mark_read(marks, lab, count, usize::from(signal.net()));
        }
    }
    count
}

// Marks the net of a signal as driven.
#[tactic(auto, unfolding(distinct::specs::passes::Marks::mark_all))]
fn mark_output(marks: &mut [u16], lab: LabMarks, count: u16, signal: Signal) -> u16
    ensures { marking marks.new result ≡ mark_all lab (marking marks.old count) (map drives (nets_at (signal.0 ∷ []))) }
{
    if signal.is_net() {
        return distinct::mark_driven(marks, lab, count, usize::from(signal.net()));
    }
    count
}

// Marks the nets of a cell: those that it reads at any port but cin, and those that it drives. Gives the count of nets marked as read, of which there
// were `count`.
#[tactic(auto, using(distinct::proofs::Nets::mark_append), unfolding(distinct::specs::passes::Marks::mark_all, crate::specs::passes::Uses::uses_of, crate::specs::NetsIn::inputs, exercise::specs::Record::outputs))]
pub fn mark_cell(marks: &mut [u16], lab: LabMarks, count: u16, cell: Record) -> u16
    ensures { marking marks.new result ≡ mark_all lab (marking marks.old count) (uses_of cell) }
{
    match cell {
        Record::Combinational(c) => {
            let count = mark_inputs(marks, lab, count, [c.dataa, c.datab, c.datac, c.datad]);
            let count = mark_output(marks, lab, count, c.combout);
            mark_output(marks, lab, count, c.cout)
        }
        Record::Register(c) => {
            let inputs = [c.datain, c.clk, c.ena, c.aclr, c.sclr, c.sload, c.sdata];
            let count = mark_inputs(marks, lab, count, inputs);
            mark_output(marks, lab, count, c.regout)
        }
        Record::Malformed => count,
    }
}
