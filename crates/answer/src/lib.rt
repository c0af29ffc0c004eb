#![tactic(auto)]

ghost use Rattle.std.specs.Prelude.{◌≡◌, cond, [], min, length};
ghost use Rattle.sheet.specs.Bytes.{begins_at};
ghost use Rattle.sheet.specs.Refusals.{told_number};
ghost use Rattle.answer.specs.Answer.{apprentice, place_count, wrong_answer_length, answer_number, opening_number, placed_of, placed_at, placed_number, placed_values, breaks_place, place_fields, place_start, place_part};

use sheet::{CellNumber, Refusal};

// The header: where its numbers stand, and its size.
pub const APPRENTICE_AT: usize = 5;

pub const PLACES_AT: usize = 9;

pub const ANSWER_HEADER: usize = 11;

pub const PLACE_SIZE: usize = 4;

// The largest x, y and LE of a place.
pub const MAX_COLUMN: u8 = 31;

pub const MAX_ROW: u8 = 31;

pub const MAX_LE: u8 = 15;

// Column, row and logic element.
#[derive(Clone, Copy, PartialEq, Eq)]
pub struct Place {
    pub x: u8,
    pub y: u8,
    pub le: u8,
}

// The answer's apprentice.
pub fn apprentice(answer: &[u8]) -> u32
    ensures { result ≡ apprentice answer.now }
{
    sheet::u32_at(answer, APPRENTICE_AT)
}

// The answer's number of cells.
pub fn place_count(answer: &[u8]) -> u16
    ensures { result ≡ place_count answer.now }
{
    sheet::u16_at(answer, PLACES_AT)
}

// 20 to 23 of an answer.
#[tactic(auto, unfolding(crate::specs::Answer::answer_number))]
pub fn check_head(answer: &[u8]) -> Result<(), Refusal>
    ensures { told_number result ≡ answer_number answer.now }
{
    if answer.len() < ANSWER_HEADER {
        return Err(Refusal::AnswerShort);
    }
    if sheet::wrong_mark(answer, b'A') {
        return Err(Refusal::AnswerMark);
    }
    if sheet::wrong_version(answer) {
        return Err(Refusal::AnswerVersion);
    }
    if apprentice(answer) == 0 {
        return Err(Refusal::NoApprentice);
    }
    Ok(())
}

// 25: the answer's length does not fit its own cell count.
#[tactic(auto, unfolding(crate::specs::Answer::wrong_answer_length))]
pub fn wrong_answer_length(answer: &[u8]) -> bool
    ensures { result ≡ wrong_answer_length answer.now }
{
    answer.len() != ANSWER_HEADER + PLACE_SIZE * usize::from(place_count(answer))
}

// 20 to 25 without 24 of an answer.
#[tactic(auto, unfolding(crate::specs::Answer::opening_number))]
pub fn check_opening(answer: &[u8]) -> Result<(), Refusal>
    ensures { told_number result ≡ opening_number answer.now }
{
    check_head(answer)?;
    if wrong_answer_length(answer) {
        return Err(Refusal::AnswerLength);
    }
    Ok(())
}

// What a place record says, None where it is out of range. A part that is not 4 bytes long is out of range.
#[tactic(auto, unfolding(crate::specs::Answer::placed_of))]
pub fn decode_place(place: &[u8]) -> Option<Place>
    ensures says { result ≡ placed_of place.now }
    ensures number { placed_number result ≡ cond (breaks_place place.now) 26 0 }
    ensures values { placed_values result ≡ cond (breaks_place place.now) [] (place_fields place.now) }
{
    let &[x, y, le, last] = place else {
        return None;
    };
    if (MAX_COLUMN < x) | (MAX_ROW < y) | (MAX_LE < le) | (last != 0) {
        return None;
    }
    Some(Place { x, y, le })
}

// Where a cell's place record begins.
pub fn place_start(cell: CellNumber) -> usize
    ensures { result ≡ place_start cell.0 }
{
    ANSWER_HEADER + PLACE_SIZE * usize::from(cell.0)
}

// The part of the answer that is a cell's place record.
pub fn place_part(answer: &[u8], cell: CellNumber) -> &[u8]
    ensures bytes { result.now ≡ place_part answer.now cell.0 }
    ensures place { result.ref_ptr ≡ begins_at answer.entry.ref_ptr (min (place_start cell.0) (length answer.now)) }
{
    sheet::part(answer, place_start(cell), PLACE_SIZE)
}

// Where the answer puts a cell, None where its place record is out of range.
#[tactic(auto, unfolding(crate::specs::Answer::placed_at))]
pub fn place_at(answer: &[u8], cell: CellNumber) -> Option<Place>
    ensures says { result ≡ placed_at answer.now cell.0 }
    ensures number { placed_number result ≡ cond (breaks_place (place_part answer.now cell.0)) 26 0 }
    ensures values { placed_values result ≡ cond (breaks_place (place_part answer.now cell.0)) [] (place_fields (place_part answer.now cell.0)) }
{
    decode_place(place_part(answer, cell))
}
