// Sheets from files, for the programs.
#![tactic(auto)]

ghost use Rattle.std.specs.Prelude.{◌≡◌, ◌≤◌, length};

use std::fs;
use std::io::Read;
use std::rt::Files;

// Reads until buf is full, the input ends or a read fails, and returns how many bytes came.
pub fn fill(input: &mut impl Read, buf: &mut [u8]) -> usize
    ensures in_bounds { result ≤ length buf.new }
    ensures len { length buf.new ≡ length buf.old }
{
    let mut done = 0;
    // How far a turn goes is the input's choice.
    while done < buf.len() {
        match input.read(&mut buf[done..]) {
            Ok(0) | Err(_) => break,
            Ok(n) => done += n,
        }
    }
    done
}

// Fills buf with the start of a file and returns how many bytes came: none where it is missing or can't be read.
pub fn read_sheet(rt: &impl Files, path: &str, buf: &mut [u8]) -> usize
    ensures in_bounds { result ≤ length buf.new }
    ensures len { length buf.new ≡ length buf.old }
{
    match fs::open(rt, path) {
        Ok(mut file) => fill(&mut file, buf),
        Err(_) => 0,
    }
}
