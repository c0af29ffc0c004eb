// Reads an exercise and an answer from the current directory and writes the listing of document 01, on its board. With the argument --settings
// the board is that of the settings sheet on standard input.
#![tactic(auto)]

use sheet_files::{fill, read_sheet};
use std::io;
use std::rt::{Env, Files};

// The largest legal sheets, and one byte more.
const SETTINGS_ROOM: usize = 17;

const EXERCISE_ROOM: usize = 12298;

const ANSWER_ROOM: usize = 2060;

// Writes the listing of an exercise and an answer on the board of a settings sheet to standard output.
fn show(rt: &impl Print, settings: &[u8], exercise: &[u8], answer: &[u8]) -> io::Result<()> {
    let mut out = [0u8; listing::MOST];
    let n = listing::listing(settings, exercise, answer, &mut out);
    rt.write_all(&out[..n])
}

// The same on the board of document 01.
fn show_on_house(rt: &impl Print, exercise: &[u8], answer: &[u8]) -> io::Result<()> {
    let mut out = [0u8; listing::MOST];
    let n = listing::house_listing(exercise, answer, &mut out);
    rt.write_all(&out[..n])
}

// Writes the listing of the sheets in the current directory, on the board of the settings sheet where one is given.
fn judge_folder(rt: &(impl Files + Print), settings: Option<&[u8]>) -> io::Result<()> {
    let mut exercise = [0u8; EXERCISE_ROOM];
    let mut answer = [0u8; ANSWER_ROOM];
    let n = read_sheet(rt, "exercise.lxe", &mut exercise);
    let m = read_sheet(rt, "answer.lxa", &mut answer);
    match settings {
        Some(sheet) => show(rt, sheet, &exercise[..n], &answer[..m]),
        None => show_on_house(rt, &exercise[..n], &answer[..m]),
    }
}

// Whether the program was started with the word --settings.
fn wants_settings(rt: &impl Env) -> bool {
    let mut word = [0u8; 16];
    match rt.arg(1, &mut word) {
        Ok(n) => &word[..n] == b"--settings".as_slice(),
        Err(_) => false,
    }
}

fn main(rt: HostRuntime) -> io::Result<()> {
    if wants_settings(&rt) {
        let mut settings = [0u8; SETTINGS_ROOM];
        let n = fill(&mut rt.reader(), &mut settings);
        return judge_folder(&rt, Some(&settings[..n]));
    }
    judge_folder(&rt, None)
}
