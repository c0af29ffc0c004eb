// Runs what no caller from C reaches: the inverse of signals, and decoders on parts of another size. A line a case.
#![tactic(auto)]

use exercise::Record;
use sheet::Signal;
use std::io;

fn inverse_case(rt: &impl Print, code: u16) -> io::Result<()> {
    let inverse = Signal(code).inverse().0;
    println!(rt; "inverse of {code} is {inverse}")
}

// The first size bytes of a record, and of a place, that keep the layout where they have 24 and 4.
fn size_case(rt: &impl Print, size: usize) -> io::Result<()> {
    let mut bytes = [0u8; 25];
    bytes[0] = 1;
    let part = sheet::part(&bytes, 0, size);
    let Record::Malformed = exercise::decode_record(part, 4) else {
        return println!(rt; "part of {size} is a record");
    };
    if answer::decode_place(part).is_some() {
        return println!(rt; "part of {size} is a place");
    }
    println!(rt; "part of {size} is neither")
}

fn main(rt: HostRuntime) -> io::Result<()> {
    for code in [
        Signal::UNCONNECTED.0,
        Signal::GND.0,
        Signal::VCC.0,
        3,
        4,
        5,
        65534,
        65535,
    ] {
        inverse_case(&rt, code)?;
    }
    for size in [3, 4, 5, 23, 24, 25] {
        size_case(&rt, size)?;
    }
    Ok(())
}
