// Runs sheets and prints a line for each text command: how long the text is, and how many indexes are opened for it.
// An argument NAME stands for NAME-types.bin, NAME-ids.bin, NAME-sheet.bin and, where the calls are lent places, NAME-places.bin; data/README.md says what
// these are.
#![tactic(auto)]

use codeview::index::{IdIndex, TypeIndex};
use files::{decimal, load_if_there, load_named, numbers, refused, say, title, within};
use leaf_writers::names::name_of;
use measures::answer::Extent;
use measures::placed;
use sheet::command::Command;
use std::io;
use std::rt::Files;
use streams::refusal::Refusal;
use wire::name::Name;

// Where a sheet has been read to, how many lines it printed, what holds for the next call, and whether the calls are lent places.
#[derive(Clone, Copy)]
struct State {
    at: usize,
    number: u64,
    flags: u32,
    size: u32,
    lent: bool,
}

fn line(rt: &impl Print, s: State, m: Result<Extent, Refusal>) -> io::Result<State> {
    decimal(rt, b"", s.number)?;
    match m {
        Ok(e) => {
            decimal(rt, b" 0 0x0 ", e.length as u64)?;
            decimal(rt, b" ", e.opened)?;
        }
        Err(f) => refused(rt, f)?,
    }
    say(rt, b"\n")?;
    Ok(s)
}

// The calls; the state stands behind the command.
fn type_line(
    rt: &impl Print,
    types: &[u8],
    places: &[u32],
    s: State,
    index: u32,
) -> io::Result<State> {
    if s.lent {
        return line(
            rt,
            s,
            placed::measure_type(types, places, s.flags, s.size, TypeIndex(index)),
        );
    }
    line(
        rt,
        s,
        measures::measure_type(types, s.flags, s.size, TypeIndex(index)),
    )
}

fn id_line(
    rt: &impl Print,
    types: &[u8],
    ids: &[u8],
    places: &[u32],
    s: State,
    index: u32,
) -> io::Result<State> {
    if s.lent {
        return line(
            rt,
            s,
            placed::measure_id(types, ids, places, s.flags, s.size, IdIndex(index)),
        );
    }
    line(
        rt,
        s,
        measures::measure_id(types, ids, s.flags, s.size, IdIndex(index)),
    )
}

fn function_line(
    rt: &impl Print,
    types: &[u8],
    places: &[u32],
    s: State,
    name: &[u8],
    index: u32,
) -> io::Result<State> {
    if s.lent {
        return line(
            rt,
            s,
            placed::measure_function(types, places, s.flags, s.size, name, TypeIndex(index)),
        );
    }
    line(
        rt,
        s,
        measures::measure_function(types, s.flags, s.size, name, TypeIndex(index)),
    )
}

// Behind a command of so many bytes and so many lines.
fn behind(s: State, width: usize, lines: u64) -> State {
    State {
        at: s.at.wrapping_add(width),
        number: s.number.wrapping_add(lines),
        ..s
    }
}

// A function's name stands behind the index: 16 bytes, or up to a zero.
fn named_line(
    rt: &impl Print,
    types: &[u8],
    places: &[u32],
    sheet: &[u8],
    s: State,
    index: u32,
) -> io::Result<State> {
    let start = s.at.wrapping_add(5);
    let end = sheet::command::name_end(sheet, start);
    let len = end.wrapping_sub(start);
    let name = name_of(sheet, Name { start, len });
    function_line(rt, types, places, behind(s, 21, 1), name, index)
}

// The line of an unknown or cut command; the sheet is at its end.
fn faulty(rt: &impl Print, sheet: &[u8], s: State, byte: u8) -> io::Result<State> {
    line(
        rt,
        behind(s, sheet.len(), 1),
        Err(Refusal::UnknownCommand(byte as u32)),
    )
}

fn step(
    rt: &impl Print,
    types: &[u8],
    ids: &[u8],
    places: &[u32],
    sheet: &[u8],
    s: State,
) -> io::Result<State> {
    match sheet::command::command_at(sheet, s.at) {
        Command::End => Ok(s),
        Command::Flags(n) => Ok(State {
            flags: n,
            ..behind(s, 5, 0)
        }),
        Command::PointerSize(n) => Ok(State {
            size: n,
            ..behind(s, 2, 0)
        }),
        Command::TypeText(i) => type_line(rt, types, places, behind(s, 5, 1), i),
        Command::TypeSize(i) => Ok(behind(s, 5, 0)),
        Command::IdText(i) => id_line(rt, types, ids, places, behind(s, 5, 1), i),
        Command::FunctionText(i) => named_line(rt, types, places, sheet, s, i),
        Command::Faulty(b) => faulty(rt, sheet, s, b),
    }
}

// All lines of a sheet: flags 0 and pointer size 8 until it says otherwise.
fn run(
    rt: &impl Print,
    types: &[u8],
    ids: &[u8],
    places: &[u32],
    sheet: &[u8],
    lent: bool,
) -> io::Result<()> {
    let mut s = State {
        at: 0,
        number: 0,
        flags: 0,
        size: 8,
        lent,
    };
    while s.at < sheet.len() {
        let t = step(rt, types, ids, places, sheet, s)?;
        if t.at <= s.at {
            return Ok(());
        }
        s = t;
    }
    Ok(())
}

// The sheet of a case whose calls are lent the first entries of these, so many.
fn run_lent(
    rt: &impl Print,
    types: &[u8],
    ids: &[u8],
    sheet: &[u8],
    count: usize,
    entries: &[u32],
) -> io::Result<()> {
    let k = within(count, entries);
    run(rt, types, ids, &entries[..k], sheet, true)
}

// The sheet of a case, given the numbers of its file of places: how many entries are lent, and these. Without numbers nothing is lent.
fn run_case(
    rt: &impl Print,
    types: &[u8],
    ids: &[u8],
    sheet: &[u8],
    given: &[u32],
) -> io::Result<()> {
    if given.len() == 0 {
        return run(rt, types, ids, given, sheet, false);
    }
    run_lent(rt, types, ids, sheet, given[0] as usize, &given[1..])
}

fn show_sheet<R: Files + Print + Eprint>(
    rt: &R,
    name: &[u8],
    types: &[u8],
    ids: &[u8],
    sheet: &[u8],
) -> io::Result<()> {
    let mut bytes = sheet_printer::room();
    let n = load_if_there(rt, name, b"-places.bin", &mut bytes)?;
    let mut given = [0u32; 4096];
    let count = numbers(&bytes[..n], &mut given);
    let k = within(count, &given);
    run_case(rt, types, ids, sheet, &given[..k])
}

fn show_case<R: Files + Print + Eprint>(rt: &R, name: &[u8]) -> io::Result<()> {
    title(rt, name)?;
    let mut types = files::large_buffer();
    let t = load_named(rt, name, b"-types.bin", &mut types)?;
    let mut ids = sheet_printer::room();
    let u = load_named(rt, name, b"-ids.bin", &mut ids)?;
    let mut sheet = sheet_printer::room();
    let n = load_named(rt, name, b"-sheet.bin", &mut sheet)?;
    show_sheet(rt, name, &types[..t], &ids[..u], &sheet[..n])
}

fn main(rt: HostRuntime) -> io::Result<()> {
    files::for_each_argument(&rt, |name| show_case(&rt, name))
}
