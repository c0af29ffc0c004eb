#![tactic(auto)]

ghost use Rattle.std.specs.Prelude.{◌≡◌, map, ◌+◌, ◌≤◌, ◌<◌, ◌^◌, None, length};
ghost use Rattle.sheet.specs.Lists.{below};
ghost use Rattle.tablet_log.specs.Credited.{credited, credited_from, credits_after, numbers_after};
ghost use Rattle.credits.specs.passes.Keys.{key_at, entry_of, keys_of};
ghost use Rattle.credits.specs.passes.Rows.{rows_begun, minutes_so_far, begun, added, with_entry, row_after, rows_by};

use sheet::Refusal;
use tablet_log::{Credit, Entry, Filled};

// The row that a pass over the sorted entries is at: its number, its apprentice, that person's last closing and minutes so far.
#[derive(Clone, Copy)]
struct Row {
    number: u16,
    apprentice: u32,
    until: u16,
    minutes: u32,
}

// How many rows are begun where this is the last.
fn rows_begun(last: Option<Row>) -> u16
    requires { rows_begun last < 65536 }
    ensures { result ≡ rows_begun last }
{
    match last {
        Some(row) => row.number + 1,
        None => 0,
    }
}

impl Row {
    // The row that an entry adds to: the last one where it is of the same apprentice, else a new one.
    #[tactic(auto, unfolding(crate::specs::passes::Rows::begun))]
    fn begun(last: Option<Row>, entry: Entry) -> Row
        requires { rows_begun last < 65536 }
        ensures after { result ≡ begun last entry }
        ensures few { result.number ≤ rows_begun last }
        ensures small { result.minutes ≤ minutes_so_far last }
    {
        match last {
            Some(row) if row.apprentice == entry.apprentice => row,
            _ => Row {
                number: rows_begun(last),
                apprentice: entry.apprentice,
                until: 0,
                minutes: 0,
            },
        }
    }

    // Adds the minutes of the apprentice's own entry from the last closing on.
    #[tactic(auto, unfolding(crate::specs::passes::Rows::added))]
    fn added(self, entry: Entry) -> Row
        requires { self.minutes < 2 ^ 31 }
        ensures after { result ≡ added self entry }
        ensures few { result.number ≡ self.number }
        ensures small { result.minutes ≤ self.minutes + 65535 }
    {
        let start = self.until.max(entry.opening);
        if start < entry.closing {
            return Row {
                until: entry.closing,
                minutes: self.minutes + u32::from(entry.closing - start),
                ..self
            };
        }
        self
    }

    // The row after one entry more.
    fn with_entry(last: Option<Row>, entry: Entry) -> Row
        requires rows_bound { rows_begun last < 65536 }
        requires minutes_bound { minutes_so_far last < 2 ^ 31 }
        ensures after { result ≡ with_entry last entry }
        ensures few { result.number ≤ rows_begun last }
        ensures small { result.minutes ≤ minutes_so_far last + 65535 }
    {
        Row::begun(last, entry).added(entry)
    }
}

// The key of entry i.
#[tactic(auto, unfolding(crate::specs::passes::Keys::key_at))]
fn key_at(log: &[u8], i: u16) -> u64
    ensures { result ≡ key_at log.now i }
{
    let entry = tablet_log::entry_at(log, i);
    let whose = u64::from(entry.apprentice) * 16384;
    (whose + u64::from(entry.opening)) * 1024 + u64::from(i)
}

// The entry of a key.
fn entry_of(log: &[u8], key: u64) -> Entry
    ensures { result ≡ entry_of log.now key }
{
    tablet_log::entry_at(log, (key % 1024) as u16)
}

// The keys of the first entries, as many as there is place for.
fn fill_keys(log: &[u8], keys: &mut [u64])
    requires { length keys.old ≤ 1024 }
    ensures { keys.new ≡ map (key_at log.now) (below (length keys.old)) }
{
    for (i, key) in keys.iter_mut().enumerate() {
        *key = key_at(log, i as u16);
    }
}

// The keys of the first entries, rising.
#[tactic(auto, unfolding(crate::specs::passes::Keys::keys_of))]
fn sort_keys(log: &[u8], keys: &mut [u64])
    requires { length keys.old ≤ 1024 }
    ensures { keys.new ≡ keys_of log.now (length keys.old) }
{
    fill_keys(log, keys);
    sorting::sort(keys);
}

// Stores the rows of all apprentices, as many as there is place for; how many apprentices they are.
fn fill_rows(log: &[u8], keys: &[u64], rows: &mut [Credit]) -> u16
    requires { length keys.now ≤ 1024 }
    ensures counted { result ≡ rows_begun (row_after None (map (entry_of log.now) keys.now)) }
    ensures stored { rows.new ≡ rows_by None rows.old (map (entry_of log.now) keys.now) }
{
    let mut last: Option<Row> = None;
    for &key in keys {
        let row = Row::with_entry(last, entry_of(log, key));
        sheet::put(rows, usize::from(row.number), [row.apprentice, row.minutes]);
        last = Some(row);
    }
    rows_begun(last)
}

// The minutes of each apprentice, rising, and the numbers of the entries that cover nothing. A refusal leaves both lists as they were.
pub fn minutes(log: &[u8], rows: &mut [Credit], numbers: &mut [u16]) -> Result<Filled, Refusal>
    ensures told { credited_from result ≡ credited log.now (length rows.old) (length numbers.old) }
    ensures minutes { rows.new ≡ credits_after log.now rows.old numbers.old }
    ensures listed { numbers.new ≡ numbers_after log.now rows.old numbers.old }
{
    if rows.len() != tablet_log::ROWS || numbers.len() != tablet_log::ENTRY_NUMBERS {
        return Err(Refusal::ListLengths);
    }
    tablet_log::check_log(log)?;
    let count = tablet_log::entry_count(log);
    // No tables are laid out for a log without entries.
    if count == 0 {
        return Ok(Filled {
            rows: 0,
            entries: 0,
        });
    }
    let mut keys = [0u64; 1024];
    let keys = &mut keys[..usize::from(count)];
    sort_keys(log, keys);
    // The rows stay as they are until it is known that they are not too many.
    let apprentices = fill_rows(log, keys, &mut []);
    let many = tablet_log::MAX_APPRENTICES < apprentices;
    if many {
        return Err(Refusal::TooManyApprentices);
    }
    fill_rows(log, keys, rows);
    let entries = tablet_log::list_empty(log, count, numbers);
    Ok(Filled {
        rows: apprentices,
        entries,
    })
}
