#![tactic(auto)]

ghost use Rattle.std.specs.Prelude.{◌≡◌, ◌<◌, Bool, false, true, not, ltb, MatchOption, IsTrue};
ghost use Rattle.sheet.specs.Lists.{first_from, first_cell};
ghost use Rattle.placing.specs.Places.{kind_at, same_place, place_taken};
ghost use Rattle.clashes.specs.passes.Keys.{has_key, key_of, put_keys, key_taken, Keyed, KeysOf, FreeTo, Apart, Clash};

use sheet::CellNumber;

// LAB columns and rows of the device, LEs of a LAB, cells that a table of keys has room for, and cells that are compared sooner than the
// marks are cleared.
const COLUMNS: u16 = answer::MAX_COLUMN as u16 + 1;

const ROWS: u16 = answer::MAX_ROW as u16 + 1;

const LES: u16 = answer::MAX_LE as u16 + 1;

const KEYS: u16 = 512;

const FEW: u16 = 32;

// The kind of a cell.
fn kind_of(exercise: &[u8], i: CellNumber) -> u8
    ensures { result ≡ kind_at exercise.now i.0 }
{
    sheet::byte_at(exercise, exercise::record_start(i))
}

// Two cells of one kind at one x, y and LE.
#[tactic(auto, unfolding(placing::specs::Places::same_place))]
fn same_place(exercise: &[u8], answer: &[u8], j: CellNumber, i: CellNumber) -> bool
    ensures { result ≡ same_place exercise.now answer.now j.0 i.0 }
{
    let kind = kind_of(exercise, j) == kind_of(exercise, i);
    let x = placing::x_of(answer, j) == placing::x_of(answer, i);
    let y = placing::y_of(answer, j) == placing::y_of(answer, i);
    let le = placing::le_of(answer, j) == placing::le_of(answer, i);
    kind & x & y & le
}

// The pairwise scan: of the cells from `from` on, the lowest that clashes with a lower cell.
#[tactic(auto, using(crate::proofs::Pairs::apart_none, crate::proofs::Pairs::apart_goes))]
fn first_clash<F: Fn(u16, u16) -> bool>(clash: F, from: u16, cells: u16) -> Option<CellNumber>
    requires callable { (j i : _) → j < i → i < cells → F.pre clash j i }
    ensures { MatchOption result (Apart (F.post clash) from cells) (λ c. Clash (F.post clash) from cells c.0) }
{
    let mut found = None;
    'cells: for i in from..cells {
        for j in 0..i {
            if clash(j, i) {
                found = Some(CellNumber(i));
                break 'cells;
            }
        }
    }
    found
}

// The number of a cell's kind, LAB and LE, where the cell is below 512 and they are in range: it then stands for the place alone.
#[tactic(auto, unfolding(crate::specs::passes::Keys::key_of, crate::specs::passes::Keys::has_key, crate::specs::passes::Keys::key, placing::specs::Places::lab_at))]
fn key_of(exercise: &[u8], answer: &[u8], i: CellNumber) -> Option<u16>
    ensures { result ≡ key_of exercise.now answer.now i.0 }
{
    let kind = kind_of(exercise, i);
    let x = u16::from(placing::x_of(answer, i));
    let y = u16::from(placing::y_of(answer, i));
    let le = u16::from(placing::le_of(answer, i));
    let room = i.0 < KEYS;
    let combinational = kind == exercise::COMBINATIONAL;
    let register = kind == exercise::REGISTER;
    let column = x < COLUMNS;
    let row = y < ROWS;
    let element = le < LES;
    if room & (combinational | register) & column & row & element {
        return Some(16384 * u16::from(kind - 1) + 16 * (32 * y + x) + le);
    }
    None
}

// Puts the cells' keys into a table. Whether every cell has one: where one has none, the table is of no use.
#[tactic(auto, using(crate::proofs::Keys::keyed_at, crate::proofs::Keys::keys_goes, crate::proofs::Keys::keys_found, crate::proofs::Keys::put_goes, crate::proofs::Keys::put_ends), unfolding(crate::specs::passes::Keys::put_keys))]
fn fill_keys(exercise: &[u8], answer: &[u8], cells: u16, keys: &mut [u16; 512]) -> bool
    ensures found { result ≡ not (ltb (first_from (λ i. not (has_key exercise.now answer.now i)) 0 cells) cells) }
    ensures filled { keys.new ≡ put_keys exercise.now answer.now keys.old (first_from (λ i. not (has_key exercise.now answer.now i)) 0 cells) }
    ensures told { IsTrue result → KeysOf exercise.now answer.now keys.new cells }
{
    for i in 0..cells {
        let Some(key) = key_of(exercise, answer, CellNumber(i)) else {
            return false;
        };
        keys[usize::from(i)] = key;
    }
    true
}

// How many cells from the first on have a key that no lower one has, or fewer of them: a mark for each key that was met.
fn free_to(keys: &[u16; 512], cells: u16) -> u16
    requires { Keyed keys.now cells }
    ensures { FreeTo keys.now cells result }
{
    let mut marks = [false; 32768];
    for i in 0..cells {
        let key = usize::from(keys[usize::from(i)]);
        if marks[key] {
            return i;
        }
        marks[key] = true;
    }
    cells
}

// 50: the lowest cell with a lower cell of its kind at its place. Where every cell has a key the scan goes by keys, and of more than a few cells it
// runs only where there may be a clash to name.
pub fn first_shared(exercise: &[u8], answer: &[u8], cells: u16) -> Option<CellNumber>
    ensures { result ≡ first_cell (place_taken exercise.now answer.now) cells }
{
    let mut keys = [0u16; 512];
    let keyed = fill_keys(exercise, answer, cells, &mut keys);
    if !keyed {
        return first_clash(
            |j, i| same_place(exercise, answer, CellNumber(j), CellNumber(i)),
            0,
            cells,
        );
    }
    let free = if cells <= FEW {
        0
    } else {
        free_to(&keys, cells)
    };
    first_clash(
        |j, i| keys[usize::from(j)] == keys[usize::from(i)],
        free,
        cells,
    )
}
