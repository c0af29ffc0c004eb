#![tactic(auto)]

ghost use Rattle.std.specs.Prelude.{◌≡◌, length};
ghost use Rattle.std.proofs.lemmas.List.Edits.{sets};
ghost use Rattle.sheet.specs.Refusals.{told_number};
ghost use Rattle.tablet_log.specs.Log.{entry_count, entry_at, bad_entry};
ghost use Rattle.tablet_log.specs.Minutes.{empty_below, covers_none};
ghost use Rattle.tablet_log.specs.Credited.{over_limit, wrong_length, any_bad, log_number};

use sheet::Refusal;

// The limits of a log, and how many rows and entry numbers are lent.
pub const MAX_ENTRIES: u16 = 1024;

pub const MAX_APPRENTICES: u16 = 64;

pub const ROWS: usize = 64;

pub const ENTRY_NUMBERS: usize = 1024;

// The minutes of a week.
const WEEK: u16 = 10080;

// The head: where the number of entries stands, and its size.
const ENTRIES_AT: usize = 5;

const HEADER: usize = 7;

const ENTRY_SIZE: usize = 14;

// Where the numbers of an entry stand; the verdict at 4 and the login at 10 are not read.
const APPRENTICE_AT: usize = 0;

const OPENING_AT: usize = 6;

const CLOSING_AT: usize = 8;

// What an entry says of whom to credit with what.
#[derive(Clone, Copy, PartialEq, Eq)]
pub struct Entry {
    pub apprentice: u32,
    pub opening: u16,
    pub closing: u16,
}

// An apprentice and the minutes.
pub type Credit = [u32; 2];

// How many rows and entry numbers are filled.
#[derive(Clone, Copy, PartialEq, Eq)]
pub struct Filled {
    pub rows: u16,
    pub entries: u16,
}

impl Entry {
    // 85: a minute above 10,080, or apprentice 0.
    #[tactic(auto, unfolding(crate::specs::Log::bad_entry))]
    fn is_bad(self) -> bool
        ensures { result ≡ bad_entry self }
    {
        let opening = WEEK < self.opening;
        let closing = WEEK < self.closing;
        let nobody = self.apprentice == 0;
        opening | closing | nobody
    }

    // Whether it closes at or before its opening.
    fn covers_none(self) -> bool
        ensures { result ≡ covers_none self }
    {
        self.closing <= self.opening
    }
}

// How many entries the head says.
pub fn entry_count(log: &[u8]) -> u16
    ensures { result ≡ entry_count log.now }
{
    sheet::u16_at(log, ENTRIES_AT)
}

// What entry i says.
#[tactic(auto, unfolding(crate::specs::Log::entry_at))]
pub fn entry_at(log: &[u8], i: u16) -> Entry
    ensures { result ≡ entry_at log.now i }
{
    let start = HEADER + ENTRY_SIZE * usize::from(i);
    Entry {
        apprentice: sheet::u32_at(log, start + APPRENTICE_AT),
        opening: sheet::u16_at(log, start + OPENING_AT),
        closing: sheet::u16_at(log, start + CLOSING_AT),
    }
}

// 85, of the log.
#[tactic(auto, unfolding(crate::specs::Credited::any_bad, crate::specs::Log::bad_at))]
fn any_bad(log: &[u8]) -> bool
    ensures { result ≡ any_bad log.now }
{
    (0..entry_count(log)).any(|i| entry_at(log, i).is_bad())
}

// 83: more than 1,024 entries.
#[tactic(auto, unfolding(crate::specs::Credited::over_limit))]
fn over_limit(log: &[u8]) -> bool
    ensures { result ≡ over_limit log.now }
{
    MAX_ENTRIES < entry_count(log)
}

// 84: the length does not fit the count.
#[tactic(auto, unfolding(crate::specs::Credited::wrong_length))]
fn wrong_length(log: &[u8]) -> bool
    ensures { result ≡ wrong_length log.now }
{
    log.len() != HEADER + ENTRY_SIZE * usize::from(entry_count(log))
}

// 80 to 85.
#[tactic(auto, unfolding(crate::specs::Credited::log_number))]
pub fn check_log(log: &[u8]) -> Result<(), Refusal>
    ensures { told_number result ≡ log_number log.now }
{
    if log.len() < HEADER {
        return Err(Refusal::LogShort);
    }
    if sheet::wrong_mark(log, b'L') {
        return Err(Refusal::LogMark);
    }
    if sheet::wrong_version(log) {
        return Err(Refusal::LogVersion);
    }
    if over_limit(log) {
        return Err(Refusal::LogOverLimit);
    }
    if wrong_length(log) {
        return Err(Refusal::LogLength);
    }
    if any_bad(log) {
        return Err(Refusal::BadEntry);
    }
    Ok(())
}

// Lists the first entries that cover nothing; how many they are.
pub fn list_empty(log: &[u8], count: u16, numbers: &mut [u16]) -> u16
    ensures filled { result ≡ length (empty_below log.now count) }
    ensures written { numbers.new ≡ sets numbers.old 0 (empty_below log.now count) }
{
    let mut n: u16 = 0;
    for i in 0..count {
        if entry_at(log, i).covers_none() {
            sheet::put(numbers, usize::from(n), i);
            n += 1;
        }
    }
    n
}
