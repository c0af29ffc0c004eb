#![tactic(auto)]

ghost use Rattle.std.specs.Prelude.{◌≡◌};
ghost use Rattle.sheet.specs.Bytes.{byte_at};
ghost use Rattle.sheet.specs.Refusals.{told_number};
ghost use Rattle.entries.specs.Table.{eight_rows};
ghost use Rattle.settings.specs.Settings.{version, entry_count, board, flags_start, flags, unknown_version, wrong_settings_length, other_flags, settings_number, row_of, table_of, settings_numbers, settings_entries};
ghost use Rattle.settings.specs.House.{house_settings};

use entries::EntryTable;
use sheet::Refusal;
use std::array;

// Where the numbers of the head stand, and its size in each version.
pub const COUNT_AT: usize = 5;

pub const BOARD_AT: usize = 6;

pub const HEADER: u8 = 6;

pub const BOARD_HEADER: u8 = 8;

pub const MAX_ENTRIES: u8 = 8;

// The flags of all five roles.
const ALL_ROLES: u8 = 31;

// The settings sheet of the board of document 01.
#[tactic(auto, unfolding(crate::specs::House::house_settings))]
pub fn house_settings() -> [u8; 12]
    ensures { result ≡ house_settings }
{
    [b'L', b'X', b'T', 1, 0, 6, 1, 5, 3, 18, 12, 24]
}

fn version(settings: &[u8]) -> u16
    ensures { result ≡ version settings.now }
{
    sheet::u16_at(settings, sheet::VERSION_AT)
}

fn entry_count(settings: &[u8]) -> u8
    ensures { result ≡ entry_count settings.now }
{
    sheet::byte_at(settings, COUNT_AT)
}

// The board's number, 0 in version 1.
fn board(settings: &[u8]) -> u16
    ensures { result ≡ board settings.now }
{
    match version(settings) {
        2 => sheet::u16_at(settings, BOARD_AT),
        _ => 0,
    }
}

// Where the flags begin.
fn flags_start(settings: &[u8]) -> u8
    ensures { result ≡ flags_start settings.now }
{
    match version(settings) {
        2 => BOARD_HEADER,
        _ => HEADER,
    }
}

// The bytes of role flags, one an entry.
fn flags(settings: &[u8]) -> &[u8]
    ensures { result.now ≡ flags settings.now }
{
    sheet::part(
        settings,
        usize::from(flags_start(settings)),
        usize::from(entry_count(settings)),
    )
}

// Whether a version is neither 1 nor 2.
pub fn is_unknown_version(version: u16) -> bool
    ensures { result ≡ unknown_version version }
{
    !matches!(version, 1 | 2)
}

#[tactic(auto, unfolding(crate::specs::Settings::wrong_settings_length))]
fn wrong_settings_length(settings: &[u8]) -> bool
    ensures { result ≡ wrong_settings_length settings.now }
{
    settings.len() != usize::from(flags_start(settings)) + usize::from(entry_count(settings))
}

// Whether some byte has a flag above the five roles.
#[tactic(auto, unfolding(crate::specs::Settings::other_flags))]
pub fn has_other_flags(flags: &[u8]) -> bool
    ensures { result ≡ other_flags flags.now }
{
    flags.iter().any(|&f| ALL_ROLES < f)
}

// 70 to 75 of a settings sheet.
#[tactic(auto, unfolding(crate::specs::Settings::settings_number))]
pub fn check_settings(settings: &[u8]) -> Result<(), Refusal>
    ensures { told_number result ≡ settings_number settings.now }
{
    if settings.len() < usize::from(HEADER) {
        return Err(Refusal::SettingsShort);
    }
    if sheet::wrong_mark(settings, b'T') {
        return Err(Refusal::SettingsMark);
    }
    if is_unknown_version(version(settings)) {
        return Err(Refusal::SettingsVersion);
    }
    if MAX_ENTRIES < entry_count(settings) {
        return Err(Refusal::TooManyEntries);
    }
    if wrong_settings_length(settings) {
        return Err(Refusal::SettingsLength);
    }
    if has_other_flags(flags(settings)) {
        return Err(Refusal::OtherFlags);
    }
    Ok(())
}

// What an entry with these flags serves: clk, ena, aclr, sclr, sload.
fn row(flags: u8) -> [bool; 5]
    ensures { result ≡ row_of flags }
{
    array::from_fn(|role| (flags >> role) % 2 == 1)
}

// The table on a settings sheet, as the search takes it: a row past the last entry serves nothing.
pub fn entry_table(settings: &[u8]) -> EntryTable
    ensures { result ≡ eight_rows (table_of settings.now) }
{
    let flags = flags(settings);
    array::from_fn(
        |e| -> [bool; 5]
            ensures { result ≡ row_of (byte_at flags.entry.now e) }
        { row(sheet::byte_at(flags, e)) },
    )
}

// Version, board number and entry count of a settings sheet; zeros where it is refused.
#[tactic(auto, unfolding(crate::specs::Settings::settings_numbers))]
pub fn settings_numbers(settings: &[u8]) -> [u16; 3]
    ensures { result ≡ settings_numbers settings.now }
{
    match check_settings(settings) {
        Ok(()) => [
            version(settings),
            board(settings),
            u16::from(entry_count(settings)),
        ],
        Err(_) => [0; 3],
    }
}

// The flags of each entry, and 0 past the last; zeros where the sheet is refused.
#[tactic(auto, unfolding(crate::specs::Settings::settings_entries))]
pub fn settings_entries(settings: &[u8]) -> [u8; 8]
    ensures { result ≡ settings_entries settings.now }
{
    match check_settings(settings) {
        Ok(()) => {
            let flags = flags(settings);
            array::from_fn(|e| sheet::byte_at(flags, e))
        }
        Err(_) => [0; 8],
    }
}
