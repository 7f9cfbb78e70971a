// Prints the lines of sheets, one after the other. An argument NAME stands for NAME-types.bin, NAME-ids.bin and NAME-sheet.bin.
#![tactic(auto)]

use std::io;
use std::rt::Files;

// The least buffer that takes every line, so that a long sheet is printed in many turns.
fn line_buffer() -> [u8; 4150] {
    [0u8; 4150]
}

fn show<R: Files + Print + Eprint>(rt: &R, name: &[u8]) -> io::Result<()> {
    let mut types = sheet_printer::room();
    let t = files::load_named(rt, name, b"-types.bin", &mut types)?;
    let mut ids = sheet_printer::room();
    let u = files::load_named(rt, name, b"-ids.bin", &mut ids)?;
    let mut sheet = sheet_printer::room();
    let n = files::load_named(rt, name, b"-sheet.bin", &mut sheet)?;
    let mut out = line_buffer();
    sheet_printer::print_lines(rt, &types[..t], &ids[..u], &sheet[..n], &mut out)?;
    Ok(())
}

fn main(rt: HostRuntime) -> io::Result<()> {
    files::for_each_argument(&rt, |name| show(&rt, name))
}
