#![tactic(auto)]

ghost use Rattle.std.specs.Prelude.{◌≡◌, refl, ℕ, List, [], ◌∷◌, ◌++◌, ◌+◌, ◌*◌, ◌≤◌, ◌<◌, ◌^◌, length, drop, ltb};
ghost use Rattle.std.proofs.lemmas.List.Edits.{sets};
ghost use Rattle.sheet.specs.Lists.{concat_map, anyb, below};
ghost use Rattle.sheet.specs.Bytes.{u16_bytes, u32_bytes};
ghost use Rattle.sheet.specs.Refusals.{told_number};
ghost use Rattle.exercise.specs.Exercise.{net_count, record_start};
ghost use Rattle.answer.specs.Answer.{place_start};
ghost use Rattle.writer.specs.Writing.{written_from, told, buffer_after};
ghost use Rattle.exercise.specs.Record.{record_bytes};
ghost use Rattle.writer.specs.Exercises.{netlist, exercise_head, exercise_sheet, records_number, exercise_refusal};
ghost use Rattle.writer.specs.Answers.{placement, answer_head, answer_sheet, answer_refusal};
ghost use Rattle.settings.specs.Settings.{head_of};
ghost use Rattle.writer.specs.Boards.{board, settings_head, settings_sheet, wrong_board, settings_refusal};
ghost use Rattle.writer.specs.passes.Put.{record_size, cut_bytes, cut_size, cut_sheet, off_board, mark_bytes};

use answer::{ANSWER_HEADER, APPRENTICE_AT, MAX_COLUMN, MAX_LE, MAX_ROW, PLACE_SIZE, PLACES_AT};
use exercise::{CELLS_AT, Cell, EXERCISE_HEADER, MAX_CELLS, MAX_NETS, NETS_AT, RECORD_SIZE};
use sheet::{Refusal, VERSION_AT};

// A place as three numbers: x, y and LE.
pub const PLACE_NUMBERS: usize = 3;

pub type CellPlace = [u16; PLACE_NUMBERS];

// The most records of either sort.
const MAX_RECORDS: usize = MAX_CELLS as usize;

// The length of the longest exercise.
const LONGEST_EXERCISE: usize = EXERCISE_HEADER + RECORD_SIZE * MAX_RECORDS;

// A value that stands on a sheet as so many bytes.
trait Part: Copy {
    ghost SIZE: { ℕ };

    ghost bytes: { Self → List ℕ };

    const SIZE: usize;

    // Stores its bytes.
    fn put(self, to: &mut [u8], at: usize)
        requires { at + SIZE ≤ length to.old }
        ensures { to.new ≡ sets to.old at (bytes self) };

    ghost sized: { (x : Self) → length (bytes x) ≡ SIZE };
}

// What a sheet of some format says.
trait Format {
    ghost refusal: { Self → ℕ → ℕ };

    ghost sheet: { Self → List ℕ };

    // What refuses it in a buffer of so many bytes.
    fn check(&self, room: usize) -> Result<(), Refusal>
        ensures { told_number result ≡ refusal self.now room };

    // Stores its sheet from the buffer's start on. The length of the sheet.
    fn put(&self, to: &mut [u8]) -> usize
        requires { refusal self.now (length to.old) ≡ 0 }
        ensures size { result ≡ length (sheet self.now) }
        ensures stored { to.new ≡ sheet self.now ++ drop (length (sheet self.now)) to.old };
}

// Writes a sheet.
fn write<F: Format>(sheet: &F, out: &mut [u8]) -> Result<usize, Refusal>
    ensures told { written_from result ≡ told (F.refusal sheet.now (length out.old)) (F.sheet sheet.now) }
    ensures written { out.new ≡ buffer_after (F.refusal sheet.now (length out.old)) (F.sheet sheet.now) out.old }
{
    sheet.check(out.len())?;
    Ok(sheet.put(out))
}

// Stores bytes.
#[tactic(auto, using(crate::proofs::Putting::part_stored))]
fn put_bytes(to: &mut [u8], at: usize, bytes: &[u8])
    requires { at + length bytes.now ≤ length to.old }
    ensures { to.new ≡ sets to.old at bytes.now }
{
    to[at..at + bytes.len()].copy_from_slice(bytes);
}

// Stores parts one after the other.
fn put_each<P: Part>(to: &mut [u8], at: usize, parts: &[P])
    requires { at + P.SIZE * length parts.now ≤ length to.old }
    ensures { to.new ≡ sets to.old at (concat_map P.bytes parts.now) }
{
    for (i, part) in parts.iter().enumerate() {
        part.put(to, at + P::SIZE * i);
    }
}

// The flags of an entry.
impl Part for u8 {
    ghost SIZE = { 1 };

    ghost bytes = { λ n. n ∷ [] };

    ghost sized = { λ n. refl };

    const SIZE: usize = 1;

    fn put(self, to: &mut [u8], at: usize) {
        to[at] = self;
    }
}

// A number's bytes, the low one first.
impl Part for u16 {
    ghost SIZE = { 2 };

    ghost bytes = { u16_bytes };

    ghost sized = { λ n. refl };

    const SIZE: usize = 2;

    fn put(self, to: &mut [u8], at: usize) {
        put_bytes(to, at, &sheet::u16_bytes(self));
    }
}

impl Part for u32 {
    ghost SIZE = { 4 };

    ghost bytes = { u32_bytes };

    ghost sized = { λ n. refl };

    const SIZE: usize = 4;

    fn put(self, to: &mut [u8], at: usize) {
        put_bytes(to, at, &self.to_le_bytes());
    }
}

// A cell's record.
impl Part for Cell {
    ghost SIZE = { 24 };

    ghost bytes = { record_bytes };

    ghost sized = { record_size };

    const SIZE: usize = RECORD_SIZE;

    #[tactic(auto, using(crate::proofs::Putting::cell_bytes))]
    fn put(self, to: &mut [u8], at: usize) {
        put_each(to, at, &self);
    }
}

// A place's record: each number's low byte, and a zero.
impl Part for CellPlace {
    ghost SIZE = { 4 };

    ghost bytes = { cut_bytes };

    ghost sized = { cut_size };

    const SIZE: usize = PLACE_SIZE;

    #[tactic(auto, unfolding(crate::specs::passes::Put::cut_bytes))]
    fn put(self, to: &mut [u8], at: usize) {
        let [x, y, le] = self;
        let [x, _] = sheet::u16_bytes(x);
        let [y, _] = sheet::u16_bytes(y);
        let [le, _] = sheet::u16_bytes(le);
        put_bytes(to, at, &[x, y, le, 0]);
    }
}

// Stores the mark with this third letter, and a version.
#[tactic(auto, unfolding(crate::specs::passes::Put::mark_bytes))]
fn put_mark(to: &mut [u8], third: u8, version: u16)
    requires { 5 ≤ length to.old }
    ensures { to.new ≡ sets to.old 0 (mark_bytes third version) }
{
    put_bytes(to, 0, &[b'L', b'X', third]);
    version.put(to, VERSION_AT);
}

// 15 and 16 of a sheet.
#[tactic(auto, using(crate::proofs::Judged::says_15, crate::proofs::Judged::says_16, crate::proofs::Judged::says_0))]
fn check_records(exercise: &[u8]) -> Result<(), Refusal>
    requires { net_count exercise.now ≤ 1024 }
    ensures { told_number result ≡ records_number exercise.now }
{
    let nets = exercise::net_count(exercise);
    let cells = exercise::cell_count(exercise);
    if tables::first_malformed(exercise, nets, cells).is_some() {
        return Err(Refusal::Malformed);
    }
    if tables::first_double_driver(exercise, cells).is_some() {
        return Err(Refusal::DoubleDriver);
    }
    Ok(())
}

// An exercise: how many nets, and its cells.
#[derive(Clone, Copy)]
struct Netlist<'a> {
    nets: u16,
    cells: &'a [Cell],
}

impl Netlist<'_> {
    #[tactic(auto, unfolding(crate::specs::Exercises::exercise_head, crate::specs::passes::Put::mark_bytes))]
    fn put_head(&self, to: &mut [u8])
        requires { (9 ≤ length to.old) × (length self.now.cells.now ≤ 512) }
        ensures { to.new ≡ sets to.old 0 (exercise_head self.now.nets (length self.now.cells.now)) }
    {
        put_mark(to, b'E', 1);
        self.nets.put(to, NETS_AT);
        (self.cells.len() as u16).put(to, CELLS_AT);
    }

    // Stores the sheet. Its length.
    #[tactic(auto, unfolding(crate::specs::Exercises::exercise_head, crate::specs::Exercises::exercise_sheet))]
    fn put_sheet(&self, to: &mut [u8]) -> usize
        requires { (record_start (length self.now.cells.now) ≤ length to.old) × (length self.now.cells.now ≤ 512) }
        ensures size { result ≡ record_start (length self.now.cells.now) }
        ensures stored { to.new ≡ sets to.old 0 (exercise_sheet (netlist self.now.nets self.now.cells.now)) }
    {
        self.put_head(to);
        put_each(to, EXERCISE_HEADER, self.cells);
        EXERCISE_HEADER + RECORD_SIZE * self.cells.len()
    }

    // 15 and 16 of the sheet that would be written.
    fn check_cells(&self) -> Result<(), Refusal>
        requires { (self.now.nets ≤ 1024) × (length self.now.cells.now ≤ 512) }
        ensures { told_number result ≡ records_number (exercise_sheet (netlist self.now.nets self.now.cells.now)) }
    {
        let mut sheet = [0u8; LONGEST_EXERCISE];
        let size = self.put_sheet(&mut sheet);
        check_records(&sheet[..size])
    }
}

impl Format for Netlist<'_> {
    ghost refusal = { λ x room. exercise_refusal (netlist x.nets x.cells.now) room };

    ghost sheet = { λ x. exercise_sheet (netlist x.nets x.cells.now) };

    #[tactic(auto, unfolding(crate::specs::Exercises::exercise_refusal, crate::specs::Exercises::records_number))]
    fn check(&self, room: usize) -> Result<(), Refusal> {
        if room < EXERCISE_HEADER + RECORD_SIZE * self.cells.len() {
            return Err(Refusal::SheetBufferLength);
        }
        if MAX_RECORDS < self.cells.len() {
            return Err(Refusal::OverLimit);
        }
        if MAX_NETS < self.nets {
            return Err(Refusal::OverLimit);
        }
        self.check_cells()
    }

    #[tactic(auto, using(crate::proofs::Outcome::exercise_fits, crate::proofs::Sheets::exercise_length, crate::proofs::Putting::front_stored))]
    fn put(&self, to: &mut [u8]) -> usize {
        self.put_sheet(to)
    }
}

// Writes the exercise sheet of so many nets and these cells.
pub fn write_exercise(nets: u16, cells: &[Cell], out: &mut [u8]) -> Result<usize, Refusal>
    ensures told { written_from result ≡ told (exercise_refusal (netlist nets cells.now) (length out.old)) (exercise_sheet (netlist nets cells.now)) }
    ensures written { out.new ≡ buffer_after (exercise_refusal (netlist nets cells.now) (length out.old)) (exercise_sheet (netlist nets cells.now)) out.old }
{
    write(&Netlist { nets, cells }, out)
}

// Whether a place is out of range.
#[tactic(auto, unfolding(crate::specs::passes::Put::off_board))]
fn is_off_board(place: CellPlace) -> bool
    ensures { result ≡ off_board place }
{
    let [x, y, le] = place;
    u16::from(MAX_COLUMN) < x || u16::from(MAX_ROW) < y || u16::from(MAX_LE) < le
}

// Whether some place is out of range.
fn some_off_board(places: &[CellPlace]) -> bool
    ensures { result ≡ anyb off_board places.now }
{
    places.iter().any(|&place| is_off_board(place))
}

// An answer: the apprentice, and the places of the cells.
#[derive(Clone, Copy)]
struct Placement<'a> {
    apprentice: u32,
    places: &'a [CellPlace],
}

impl Placement<'_> {
    #[tactic(auto, unfolding(crate::specs::Answers::answer_head, crate::specs::passes::Put::mark_bytes))]
    fn put_head(&self, to: &mut [u8])
        requires { (11 ≤ length to.old) × (length self.now.places.now ≤ 512) }
        ensures { to.new ≡ sets to.old 0 (answer_head self.now.apprentice (length self.now.places.now)) }
    {
        put_mark(to, b'A', 1);
        self.apprentice.put(to, APPRENTICE_AT);
        (self.places.len() as u16).put(to, PLACES_AT);
    }

    // Stores the sheet. Its length.
    #[tactic(auto, unfolding(crate::specs::Answers::answer_head, crate::specs::passes::Put::cut_sheet))]
    fn put_sheet(&self, to: &mut [u8]) -> usize
        requires { (place_start (length self.now.places.now) ≤ length to.old) × (length self.now.places.now ≤ 512) }
        ensures size { result ≡ place_start (length self.now.places.now) }
        ensures stored { to.new ≡ sets to.old 0 (cut_sheet (placement self.now.apprentice self.now.places.now)) }
    {
        self.put_head(to);
        put_each(to, ANSWER_HEADER, self.places);
        ANSWER_HEADER + PLACE_SIZE * self.places.len()
    }
}

impl Format for Placement<'_> {
    ghost refusal = { λ x room. answer_refusal (placement x.apprentice x.places.now) room };

    ghost sheet = { λ x. answer_sheet (placement x.apprentice x.places.now) };

    #[tactic(auto, using(crate::proofs::Outcome::any_out), unfolding(crate::specs::Answers::answer_refusal))]
    fn check(&self, room: usize) -> Result<(), Refusal> {
        if room < ANSWER_HEADER + PLACE_SIZE * self.places.len() {
            return Err(Refusal::SheetBufferLength);
        }
        if MAX_RECORDS < self.places.len() {
            return Err(Refusal::OverLimit);
        }
        if self.apprentice == 0 {
            return Err(Refusal::NoApprentice);
        }
        if some_off_board(self.places) {
            return Err(Refusal::OutOfRange);
        }
        Ok(())
    }

    #[tactic(auto, using(crate::proofs::Outcome::answer_fits, crate::proofs::Outcome::cut_same, crate::proofs::Sheets::answer_length, crate::proofs::Putting::front_stored))]
    fn put(&self, to: &mut [u8]) -> usize {
        self.put_sheet(to)
    }
}

// Writes the answer sheet of an apprentice's places.
pub fn write_answer(apprentice: u32, places: &[CellPlace], out: &mut [u8]) -> Result<usize, Refusal>
    ensures told { written_from result ≡ told (answer_refusal (placement apprentice places.now) (length out.old)) (answer_sheet (placement apprentice places.now)) }
    ensures written { out.new ≡ buffer_after (answer_refusal (placement apprentice places.now) (length out.old)) (answer_sheet (placement apprentice places.now)) out.old }
{
    write(&Placement { apprentice, places }, out)
}

// How many bytes stand before the flags in a version.
fn head_size(version: u16) -> usize
    ensures { result ≡ head_of version }
{
    if version == 2 {
        usize::from(settings::BOARD_HEADER)
    } else {
        usize::from(settings::HEADER)
    }
}

// A settings sheet's version, its board's number, and the flags of its entries.
#[derive(Clone, Copy)]
struct Board<'a> {
    version: u16,
    number: u16,
    entries: &'a [u8],
}

impl Board<'_> {
    // Whether 72 refuses the version or the number.
    #[tactic(auto, unfolding(crate::specs::Boards::wrong_board))]
    fn is_wrong(&self) -> bool
        ensures { result ≡ wrong_board self.now.version self.now.number }
    {
        settings::is_unknown_version(self.version) || self.version == 1 && self.number != 0
    }

    #[tactic(auto, unfolding(crate::specs::Boards::settings_head, crate::specs::passes::Put::mark_bytes))]
    fn put_head(&self, to: &mut [u8])
        requires { (head_of self.now.version ≤ length to.old) × (length self.now.entries.now ≤ 8) }
        ensures { to.new ≡ sets to.old 0 (settings_head self.now.version self.now.number (length self.now.entries.now)) }
    {
        put_mark(to, b'T', self.version);
        to[settings::COUNT_AT] = self.entries.len() as u8;
        if self.version == 2 {
            self.number.put(to, settings::BOARD_AT);
        }
    }

    // Stores the sheet. Its length.
    #[tactic(auto, using(crate::proofs::Putting::then_put, crate::proofs::Putting::flags_stored, crate::proofs::Sheets::settings_head_size), unfolding(crate::specs::Boards::settings_sheet))]
    fn put_sheet(&self, to: &mut [u8]) -> usize
        requires { (head_of self.now.version + length self.now.entries.now ≤ length to.old) × (length self.now.entries.now ≤ 8) }
        ensures size { result ≡ head_of self.now.version + length self.now.entries.now }
        ensures stored { to.new ≡ sets to.old 0 (settings_sheet (board self.now.version self.now.number self.now.entries.now)) }
    {
        self.put_head(to);
        let head = head_size(self.version);
        // Not by `put_bytes`: a copy of a length that only the caller knows calls memmove.
        put_each(to, head, self.entries);
        head + self.entries.len()
    }
}

impl Format for Board<'_> {
    ghost refusal = { λ x room. settings_refusal (board x.version x.number x.entries.now) room };

    ghost sheet = { λ x. settings_sheet (board x.version x.number x.entries.now) };

    #[tactic(auto, unfolding(crate::specs::Boards::settings_refusal))]
    fn check(&self, room: usize) -> Result<(), Refusal> {
        if self.is_wrong() {
            return Err(Refusal::SettingsVersion);
        }
        if usize::from(settings::MAX_ENTRIES) < self.entries.len() {
            return Err(Refusal::TooManyEntries);
        }
        if settings::has_other_flags(self.entries) {
            return Err(Refusal::OtherFlags);
        }
        if room < head_size(self.version) + self.entries.len() {
            return Err(Refusal::SheetBufferLength);
        }
        Ok(())
    }

    #[tactic(auto, using(crate::proofs::Outcome::settings_fit, crate::proofs::Sheets::settings_length, crate::proofs::Putting::front_stored))]
    fn put(&self, to: &mut [u8]) -> usize {
        self.put_sheet(to)
    }
}

// Writes the settings sheet of a board's version, number and entries.
pub fn write_settings(
    version: u16,
    number: u16,
    entries: &[u8],
    out: &mut [u8],
) -> Result<usize, Refusal>
    ensures told { written_from result ≡ told (settings_refusal (board version number entries.now) (length out.old)) (settings_sheet (board version number entries.now)) }
    ensures written { out.new ≡ buffer_after (settings_refusal (board version number entries.now) (length out.old)) (settings_sheet (board version number entries.now)) out.old }
{
    let board = Board {
        version,
        number,
        entries,
    };
    write(&board, out)
}
