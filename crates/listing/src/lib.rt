#![tactic(auto)]

ghost use Rattle.std.specs.Prelude.{◌≡◌, [], ◌∷◌, ◌++◌, ◌+◌, ◌≤◌, length, set};
ghost use Rattle.settings.specs.House.{house_settings};
ghost use Rattle.listing.specs.Text.{ascii, decimal, overwrite, MOST};
ghost use Rattle.listing.specs.passes.Writes.{Fits, Writes, number_or_dash};
ghost use Rattle.listing.specs.Listing.{place, entry, verdict_line, lab_line, listing};
ghost use Rattle.listing.specs.passes.Marks.{row_at, marks_of, lines_below};

use judge::NONE;
use sheet::CellNumber;
use verdict::Verdict;

// No listing is longer, so a buffer of this size always has room: 72 bytes for the verdict line and 127 for each LAB.
pub const MOST: usize = 72 + 127 * 1024;

// A route byte where there is no need.
const NO_ENTRY: u8 = 255;

// A lent buffer and the place where the next byte goes. What the buffer has no room for is dropped. Not a writer of `write!`, whose contract
// leaves open that it fails.
#[derive(Drop)]
struct Page<'a> {
    out: &'a mut [u8],
    at: usize,
}

impl Page<'_> {
    // A byte.
    #[tactic(auto, unfolding(crate::specs::Text::overwrite))]
    fn byte(&mut self, byte: u8)
        requires { Fits self.old.at 0 }
        ensures { Writes self.old (byte ∷ []) 1 self.new }
    {
        sheet::put(self.out, self.at, byte);
        self.at += 1;
    }

    // A text.
    fn text(&mut self, text: &[u8])
        requires { Fits self.old.at (length text.now) }
        ensures { Writes self.old text.now (length text.now) self.new }
    {
        for &byte in text {
            self.byte(byte);
        }
    }

    // A number in decimal.
    fn number(&mut self, n: u32)
        requires { Fits self.old.at 10 }
        ensures { Writes self.old (decimal n) 10 self.new }
    {
        if n >= 10 {
            self.number(n / 10);
        }
        self.byte(b'0' + (n % 10) as u8);
    }

    // A name and a number, or a dash where there is none.
    fn field(&mut self, name: &[u8], n: Option<u32>)
        requires { Fits self.old.at (length name.now + 10) }
        ensures { Writes self.old (name.now ++ number_or_dash n) (length name.now + 10) self.new }
    {
        self.text(name);
        match n {
            Some(n) => self.number(n),
            None => self.byte(b'-'),
        }
    }

    // The line of a verdict.
    fn verdict_line(&mut self, v: Verdict)
        requires { Fits self.old.at 72 }
        ensures { Writes self.old (verdict_line v) 72 self.new }
    {
        self.field(b"verdict ", Some(u32::from(v.number)));
        self.field(b" cell ", place(v.cell));
        self.field(b" lab ", place(v.lab));
        self.field(b" apprentice ", Some(v.apprentice));
        self.byte(b'\n');
    }

    // The line of a LAB with these route bytes.
    fn lab_line(&mut self, lab: u16, bytes: [u8; 8])
        requires { Fits self.old.at 127 }
        ensures { Writes self.old (lab_line lab bytes) 127 self.new }
    {
        self.field(b"lab ", Some(u32::from(lab)));
        self.field(b" clk ", entry(bytes[0]));
        self.field(b" ", entry(bytes[1]));
        self.field(b" ena ", entry(bytes[2]));
        self.field(b" ", entry(bytes[3]));
        self.field(b" aclr ", entry(bytes[4]));
        self.field(b" ", entry(bytes[5]));
        self.field(b" sclr ", entry(bytes[6]));
        self.field(b" sload ", entry(bytes[7]));
        self.byte(b'\n');
    }

    // The lines of the marked LABs, rising.
    fn lab_lines(&mut self, marks: &[bool; 1024], route: &[u8])
        requires { Fits self.old.at 130048 }
        ensures { Writes self.old (lines_below marks.now route.now 1024) 130048 self.new }
    {
        for lab in 0..lab_pass::LABS {
            if marks[usize::from(lab)] {
                self.lab_line(lab, row(route, lab));
            }
        }
    }

    // The verdict line, and for a legal answer the lines of the LABs.
    fn listing(&mut self, settings: &[u8], exercise: &[u8], answer: &[u8])
        requires { Fits self.old.at MOST }
        ensures { Writes self.old (listing settings.now exercise.now answer.now) MOST self.new }
    {
        let mut route = [NO_ENTRY; judge::ROUTE_SIZE];
        let mut tries = [0u32; judge::TRIES_SIZE];
        let verdict = judge::judge_sheets(settings, exercise, answer, &mut route, &mut tries);
        self.verdict_line(verdict);
        if verdict.number == 0 {
            let marks = marks_of(answer, exercise::cell_count(exercise));
            self.lab_lines(&marks, &route);
        }
    }
}

// A cell or a LAB, or None where there is none.
#[tactic(auto, unfolding(crate::specs::Listing::or_dash))]
fn place(n: u16) -> Option<u32>
    ensures { number_or_dash result ≡ place n }
{
    (n != NONE).then_some(u32::from(n))
}

// A route byte, or None where there is no need.
#[tactic(auto, unfolding(crate::specs::Listing::or_dash))]
fn entry(n: u8) -> Option<u32>
    ensures { number_or_dash result ≡ entry n }
{
    (n != NO_ENTRY).then_some(u32::from(n))
}

// The eight bytes of a LAB in the route buffer.
#[tactic(auto, unfolding(crate::specs::passes::Marks::row_at))]
fn row(route: &[u8], lab: u16) -> [u8; 8]
    ensures { result ≡ row_at route.now lab }
{
    std::array::from_fn(|j| sheet::byte_at(route, 8 * usize::from(lab) + j))
}

// A mark for each LAB that one of the cells stands in.
#[tactic(auto, unfolding(crate::specs::passes::Marks::marks_of))]
fn marks_of(answer: &[u8], cells: u16) -> [bool; 1024]
    ensures { result ≡ marks_of answer.now cells }
{
    let mut marks = [false; 1024];
    for i in 0..cells {
        let lab = usize::from(placing::lab_of(answer, CellNumber(i)));
        sheet::put(&mut marks, lab, true);
    }
    marks
}

// Writes the listing of an exercise and an answer on the board of a settings sheet into a buffer and returns its length. What the buffer has no
// room for is dropped.
pub fn listing(settings: &[u8], exercise: &[u8], answer: &[u8], out: &mut [u8]) -> usize
    ensures written { out.new ≡ overwrite out.old 0 (listing settings.now exercise.now answer.now) }
    ensures counted { result ≡ length (listing settings.now exercise.now answer.now) }
    ensures short { result ≤ MOST }
{
    let mut page = Page { out, at: 0 };
    page.listing(settings, exercise, answer);
    page.at
}

// The listing on the board of document 01.
pub fn house_listing(exercise: &[u8], answer: &[u8], out: &mut [u8]) -> usize
    ensures written { out.new ≡ overwrite out.old 0 (listing house_settings exercise.now answer.now) }
    ensures counted { result ≡ length (listing house_settings exercise.now answer.now) }
    ensures short { result ≤ MOST }
{
    let house = settings::house_settings();
    listing(&house, exercise, answer, out)
}
