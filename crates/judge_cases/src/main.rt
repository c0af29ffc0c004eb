// Judges one of the samples for each number, NN.lxe and NN.lxa for the number NN, on the board of NN.lxt, where it is there, otherwise on that
// of document 01, and writes what the judge hands back: number, cell, LAB, apprentice and the culprit's bytes.
#![tactic(auto)]

ghost use Rattle.std.specs.Prelude.{◌≡◌, ◌<◌, ◌≤◌, length};

use std::rt::Files;
use std::{io, str};

// Room for the largest sheet of these cases.
const SHEET_ROOM: usize = 512;

// Fills buf with a case's sheet, whose name ends in this letter, and returns how many bytes came: none where it is missing.
fn read_sheet(rt: &impl Files, case: u8, letter: u8, buf: &mut [u8]) -> usize
    requires { case < 100 }
    ensures in_bounds { result ≤ length buf.new }
    ensures len { length buf.new ≡ length buf.old }
{
    let tens = b'0' + case / 10;
    let ones = b'0' + case % 10;
    let path = [tens, ones, b'.', b'l', b'x', letter];
    let Ok(path) = str::from_utf8(&path) else {
        return 0;
    };
    sheet_files::read_sheet(rt, path, buf)
}

fn bytes(rt: &impl Print, part: &[u8]) -> io::Result<()> {
    for byte in part {
        print!(rt; " {byte}")?;
    }
    Ok(())
}

// The length of a case's route buffer: a byte short for number 1.
fn room_for(case: u8) -> usize
    ensures { result ≤ 8192 }
{
    if case == 1 {
        return judge::ROUTE_SIZE - 1;
    }
    judge::ROUTE_SIZE
}

// The length of a case's list of tries: a number short for number 3.
fn slots_for(case: u8) -> usize
    ensures { result ≤ 1024 }
{
    if case == 3 {
        return judge::TRIES_SIZE - 1;
    }
    judge::TRIES_SIZE
}

fn verdict(rt: &impl Print, numbers: [u32; 4]) -> io::Result<()> {
    let [number, cell, lab, apprentice] = numbers;
    print!(rt; "verdict {number} cell {cell} lab {lab} apprentice {apprentice}")
}

// A line with what the judge hands back.
fn show<'a>(
    rt: &impl Print,
    settings: &[u8],
    exercise: &'a [u8],
    answer: &'a [u8],
    room: usize,
    slots: usize,
) -> io::Result<()>
    requires { (room ≤ 8192) × (slots ≤ 1024) }
{
    let mut route = [255u8; judge::ROUTE_SIZE];
    let mut tries = [0u32; judge::TRIES_SIZE];
    let mut numbers = [0u32; 4];
    let culprit = judge::judge(
        settings,
        exercise,
        answer,
        &mut route[..room],
        &mut tries[..slots],
        &mut numbers,
    );
    verdict(rt, numbers)?;
    print!(rt; " culprit")?;
    bytes(rt, culprit)?;
    println!(rt; "")
}

// The line of a case, none where there is no such case.
fn run(rt: &(impl Files + Print), case: u8) -> io::Result<()>
    requires { case < 100 }
{
    let mut exercise = [0u8; SHEET_ROOM];
    let mut answer = [0u8; SHEET_ROOM];
    let n = read_sheet(rt, case, b'e', &mut exercise);
    let m = read_sheet(rt, case, b'a', &mut answer);
    if n == 0 {
        return Ok(());
    }
    let mut settings = [0u8; SHEET_ROOM];
    let k = read_sheet(rt, case, b't', &mut settings);
    if k == 0 {
        let house = settings::house_settings();
        return show(
            rt,
            &house,
            &exercise[..n],
            &answer[..m],
            room_for(case),
            slots_for(case),
        );
    }
    show(
        rt,
        &settings[..k],
        &exercise[..n],
        &answer[..m],
        room_for(case),
        slots_for(case),
    )
}

fn main(rt: HostRuntime) -> io::Result<()> {
    for case in 0u8..76 {
        run(&rt, case)?;
    }
    Ok(())
}
