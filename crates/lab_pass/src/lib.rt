#![tactic(auto)]

ghost use Rattle.std.specs.Prelude.{◌≡◌, cond, map, ◌+◌, ◌<◌, length, get_or, slice_get, leb, ltb, IsTrue, Some, None};
ghost use Rattle.lab_rules.specs.Rules.{MAX_NETS_IN};
ghost use Rattle.exercise.specs.passes.Known.{known_at};
ghost use Rattle.distinct.specs.passes.Marks.{marking, mark_all, Lower};
ghost use Rattle.lab_rules.specs.passes.Counts.{no_counts, counts_all, lab_search_from, searched};
ghost use Rattle.lab_nets.specs.passes.Uses.{uses_of};
ghost use Rattle.lab_pass.specs.passes.Links.{link, link_below, walk};
ghost use Rattle.lab_pass.specs.passes.Results.{marks_of, marked_if, Tells, result_at, tries_at, has_cells, EmptyUnless, lowest_broken, lowest_from, put_row, put_rows, put_tries, searched_labs};

use distinct::LabMarks;
use entries::EntryTable;
use exercise::Record;
use lab_rules::Counts;
use route::Search;
use sheet::{CellNumber, NONE, Refusal, put};

// The number of LABs.
pub const LABS: u16 = 1024;

// So many LABs in a row are passed over at once where none of them has cells.
const GROUP: u16 = 8;

// No list has more cells.
const CELLS: u16 = 512;

// A LAB that breaks one of 60 to 65, and the lowest of them.
#[derive(Clone, Copy, PartialEq, Eq)]
pub struct BrokenLab {
    pub lab: u16,
    pub refusal: Refusal,
}

// The counts of a LAB's registers and its number of nets in.
#[derive(Clone, Copy, PartialEq, Eq)]
struct Counted {
    counts: Counts,
    nets: u16,
}

// Puts every cell into the list of its LAB, rising: `first` has a LAB's first cell, `next` the next cell of the same LAB. 65,535 is none: an
// Option<u16> would take twice the room.
#[tactic(auto, using(crate::proofs::Linking::link_goes, crate::proofs::Linking::link_ends))]
pub fn link_cells(answer: &[u8], cells: u16, first: &mut [u16], next: &mut [u16])
    ensures firsts { first.exit.now ≡ (link_below answer.now (record { first = first.entry.now; next = next.old }) cells).first }
    ensures nexts { next.new ≡ (link_below answer.now (record { first = first.entry.now; next = next.old }) cells).next }
{
    for i in (0..cells).rev() {
        link(answer, CellNumber(i), first, next);
    }
}

// Puts a cell in front of its LAB's list.
#[tactic(auto, unfolding(crate::specs::passes::Links::link))]
fn link(answer: &[u8], i: CellNumber, first: &mut [u16], next: &mut [u16])
    ensures firsts { first.exit.now ≡ (link answer.now (record { first = first.entry.now; next = next.old }) i.0).first }
    ensures nexts { next.new ≡ (link answer.now (record { first = first.entry.now; next = next.old }) i.0).next }
{
    let lab = placing::lab_of(answer, i);
    put(next, usize::from(i.0), entry(first, lab));
    put(first, usize::from(lab), i.0);
}

// An entry of a table of cells, 65,535 past its end.
fn entry(table: &[u16], i: u16) -> u16
    ensures { result ≡ get_or table.now i 65535 }
{
    table.get(usize::from(i)).copied().unwrap_or(NONE)
}

// Whether a LAB has cells.
#[tactic(auto, unfolding(crate::specs::passes::Results::has_cells))]
fn is_occupied(first: &[u16], next: &[u16], lab: u16) -> bool
    ensures { result ≡ has_cells first.now next.now lab }
{
    usize::from(entry(first, lab)) < next.len()
}

// Whether one of eight LABs in a row has cells. All eight are looked at, which compiles to one comparison.
fn any_occupied(first: &[u16], next: &[u16], from: u16) -> bool
    requires { from < 1024 }
    ensures { EmptyUnless (has_cells first.now next.now) from 8 result }
{
    let mut any = false;
    for lab in from..from + GROUP {
        any |= is_occupied(first, next, lab);
    }
    any
}

// The first cell of a LAB that has one.
#[tactic(auto, unfolding(crate::specs::passes::Results::has_cells))]
fn start_of(first: &[u16], next: &[u16], lab: u16) -> Option<u16>
    ensures { result ≡ cond (has_cells first.now next.now lab) (Some (get_or first.now lab 65535)) None }
{
    let start = entry(first, lab);
    if usize::from(start) < next.len() {
        Some(start)
    } else {
        None
    }
}

// The cell after one of a list, none past its end.
fn after(next: &[u16], at: u16) -> Option<u16>
    ensures { result ≡ slice_get next.now at }
{
    next.get(usize::from(at)).copied()
}

// Whether the list that begins with a cell has five cells at the most.
#[tactic(auto, using(crate::proofs::Linked::after_cell, crate::proofs::Linked::after_none, crate::proofs::Linked::walk_past, crate::proofs::Short::short_goes, crate::proofs::Short::short_stops))]
fn is_short(next: &[u16], start: u16) -> bool
    ensures { result ≡ leb (length (walk next.now start 512)) 5 }
{
    let mut at = start;
    for _k in 0..6u16 {
        let Some(after) = after(next, at) else {
            return true;
        };
        at = after;
    }
    false
}

// The two marks of a LAB, higher than those of the LABs below it.
#[tactic(auto, unfolding(crate::specs::passes::Results::marks_of))]
fn marks_of(lab: u16) -> LabMarks
    requires { lab < 1024 }
    ensures { result ≡ marks_of lab }
{
    LabMarks {
        read: 2 * lab + 1,
        driven: 2 * lab + 2,
    }
}

// Marks the nets that a cell reads and drives, where they are to be counted. Gives the count of nets marked as read.
fn mark_if(counting: bool, marks: &mut [u16], lab: LabMarks, nets: u16, cell: Record) -> u16
    ensures { marking marks.new result ≡ cond counting (mark_all lab (marking marks.old nets) (uses_of cell)) (marking marks.old nets) }
{
    if counting {
        return lab_nets::mark_cell(marks, lab, nets, cell);
    }
    nets
}

// The walk over the list that begins with a cell: counts its registers, and the nets in of all its cells where they are to be counted.
#[tactic(auto, using(crate::proofs::Linked::after_cell, crate::proofs::Linked::after_none, crate::proofs::Linked::walk_past, crate::proofs::Taking::walk_all, crate::proofs::Taking::take_ends))]
fn count_cells(
    exercise: &[u8],
    next: &[u16],
    start: u16,
    counting: bool,
    lab: LabMarks,
    marks: &mut [u16],
) -> Counted
    ensures counted { result.counts ≡ counts_all no_counts (map (known_at exercise.now) (walk next.now start 512)) }
    ensures marked { marking marks.new result.nets ≡ marked_if counting lab (marking marks.old 0) (map (known_at exercise.now) (walk next.now start 512)) }
{
    let mut counts = Counts::none();
    let mut nets: u16 = 0;
    let mut at = start;
    for _k in 0..CELLS {
        let Some(after) = after(next, at) else {
            return Counted { counts, nets };
        };
        let cell = exercise::known_record_at(exercise, CellNumber(at));
        nets = mark_if(counting, marks, lab, nets, cell);
        at = after;
        if let Record::Register(_) = cell {
            counts = counts.with(cell);
        }
    }
    Counted { counts, nets }
}

// The nets in where they are too many for 64, otherwise 0: up to there their number makes no difference.
fn too_many(nets: u16) -> u16
    ensures { result ≡ cond (ltb MAX_NETS_IN nets) nets 0 }
{
    if lab_rules::MAX_NETS_IN < nets {
        return nets;
    }
    0
}

// The counts and the nets in of the list that begins with a cell, 0 where it keeps 64. Five cells read 35 nets at the most, so only of a longer list the
// nets are counted. All marks are lower than those of the LAB, and then no higher.
fn counted_from(
    exercise: &[u8],
    next: &[u16],
    start: u16,
    lab: LabMarks,
    marks: &mut [u16],
) -> Counted
    requires rising { lab.read < lab.driven }
    requires lower { Lower 1024 lab.read marks.old }
    ensures told { Tells (known_at exercise.now) (walk next.now start 512) result.counts result.nets }
    ensures kept { Lower 1024 (lab.driven + 1) marks.new }
{
    if is_short(next, start) {
        return count_cells(exercise, next, start, false, lab, marks);
    }
    let counted = count_cells(exercise, next, start, true, lab, marks);
    let counts = counted.counts;
    let nets = too_many(counted.nets);
    Counted { counts, nets }
}

// Whether what was counted of two LABs is the same.
fn is_same(a: Counted, b: Counted) -> bool
    ensures same { IsTrue result → a ≡ b }
    ensures found { a ≡ b → IsTrue result }
{
    a == b
}

// The result and the tries of a LAB: those of the LAB before where the counts and the nets in are the same.
fn solve(
    table: EntryTable,
    counted: Counted,
    previous: Counted,
    known: Search<Result<[u8; 8], Refusal>>,
) -> Search<Result<[u8; 8], Refusal>>
    requires { lab_search_from known ≡ searched table previous.counts previous.nets }
    ensures { lab_search_from result ≡ searched table counted.counts counted.nets }
{
    if is_same(counted, previous) {
        return known;
    }
    lab_rules::lab_search(table, counted.counts, counted.nets)
}

// Puts a LAB's eight route bytes into the rows.
#[tactic(auto, unfolding(crate::specs::passes::Results::put_row))]
fn put_row(rows: &mut [u8; 8192], lab: u16, bytes: [u8; 8])
    requires { lab < 1024 }
    ensures { rows.new ≡ put_row rows.old lab bytes }
{
    let at = 8 * usize::from(lab);
    rows[at..at + 8].copy_from_slice(&bytes);
}

// 60 to 65, in an exercise that passes 15: the lowest LAB that breaks one of them. The route bytes of the occupied LABs below it are
// put into the rows, their tries and those of the LAB itself into the list.
pub fn route_labs(
    table: EntryTable,
    exercise: &[u8],
    first: &[u16],
    next: &[u16],
    rows: &mut [u8; 8192],
    tries: &mut [u32; 1024],
) -> Result<(), BrokenLab>
    ensures found { lowest_from result ≡ lowest_broken table (known_at exercise.now) first.now next.now }
    ensures written { rows.new ≡ put_rows (has_cells first.now next.now) (λ l. (result_at table (known_at exercise.now) first.now next.now l).bytes) rows.old (lowest_from result).lab }
    ensures counted { tries.new ≡ put_tries (has_cells first.now next.now) (tries_at table (known_at exercise.now) first.now next.now) tries.old (searched_labs (lowest_from result).lab) }
{
    let idle = Counted {
        counts: Counts::none(),
        nets: 0,
    };
    let mut previous = idle;
    let mut search = lab_rules::lab_search(table, idle.counts, 0);
    let mut marks = [0u16; 1024];
    for group in 0..LABS / GROUP {
        let from = GROUP * group;
        if !any_occupied(first, next, from) {
            continue;
        }
        for lab in from..from + GROUP {
            let Some(start) = start_of(first, next, lab) else {
                continue;
            };
            let counted = counted_from(exercise, next, start, marks_of(lab), &mut marks);
            if counted == idle {
                put_row(rows, lab, [255; 8]);
                tries[usize::from(lab)] = 0;
                continue;
            }
            search = solve(table, counted, previous, search);
            previous = counted;
            tries[usize::from(lab)] = search.tries;
            match search.found {
                Ok(bytes) => put_row(rows, lab, bytes),
                Err(refusal) => return Err(BrokenLab { lab, refusal }),
            }
        }
    }
    Ok(())
}
