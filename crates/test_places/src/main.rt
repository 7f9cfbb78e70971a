// Runs sheets whose calls are lent places, then the pass that fills places, and prints a line for each call.
// An argument NAME stands for NAME-types.bin, NAME-ids.bin, NAME-places.bin, NAME-sheet.bin and NAME-lengths.bin; data/README.md says what these are.
#![tactic(auto)]

use codeview::index::{IdIndex, TypeIndex};
use files::{all, decimal, fill, judge, load_named, numbers, refused, say, title, within};
use leaf_writers::names::name_of;
use sheet::command::Command;
use std::io;
use std::rt::Files;
use streams::refusal::Refusal;
use type_formatter::placed;
use wire::name::Name;

// Where a sheet has been read to, how many lines it printed, and what holds for the next call.
#[derive(Clone, Copy)]
struct State {
    at: usize,
    number: u64,
    flags: u32,
    size: u32,
}

// The pass is lent entries full of this number.
fn fill_entries(places: &mut [u32]) {
    places.fill(0xaaaa_aaaa);
}

// Whether all entries from a number on are this one.
fn all_entries(places: &[u32], from: usize, entry: u32) -> bool {
    places.iter().skip(from).all(|e| *e == entry)
}

fn text_line(
    rt: &impl Print,
    out: &[u8],
    number: u64,
    a: Result<usize, Refusal>,
) -> io::Result<()> {
    decimal(rt, b"", number)?;
    match a {
        Ok(n) => {
            say(rt, b" 0 0x0 ")?;
            let k = within(n, out);
            say(rt, &out[..k])?;
            judge(rt, all(out, n, 0xaa))?;
        }
        Err(f) => {
            refused(rt, f)?;
            judge(rt, all(out, 0, 0))?;
        }
    }
    say(rt, b"\n")
}

fn size_line(rt: &impl Print, number: u64, a: Result<u64, Refusal>) -> io::Result<()> {
    decimal(rt, b"", number)?;
    match a {
        Ok(n) => decimal(rt, b" 0 0x0 ", n)?,
        Err(f) => refused(rt, f)?,
    }
    say(rt, b"\n")
}

// The calls, each on a buffer of its own; the state stands behind the command.
fn type_text(
    rt: &impl Print,
    types: &[u8],
    places: &[u32],
    s: State,
    index: u32,
) -> io::Result<State> {
    let mut out = files::buffer();
    fill(&mut out);
    let a = placed::format_type(types, places, &mut out, s.flags, s.size, TypeIndex(index));
    text_line(rt, &out, s.number, a)?;
    Ok(s)
}

fn id_text(
    rt: &impl Print,
    types: &[u8],
    ids: &[u8],
    places: &[u32],
    s: State,
    index: u32,
) -> io::Result<State> {
    let mut out = files::buffer();
    fill(&mut out);
    let a = placed::format_id(
        types,
        ids,
        places,
        &mut out,
        s.flags,
        s.size,
        IdIndex(index),
    );
    text_line(rt, &out, s.number, a)?;
    Ok(s)
}

fn function_text(
    rt: &impl Print,
    types: &[u8],
    places: &[u32],
    s: State,
    name: &[u8],
    index: u32,
) -> io::Result<State> {
    let mut out = files::buffer();
    fill(&mut out);
    let a = placed::format_function(
        types,
        places,
        &mut out,
        s.flags,
        s.size,
        name,
        TypeIndex(index),
    );
    text_line(rt, &out, s.number, a)?;
    Ok(s)
}

fn type_size(
    rt: &impl Print,
    types: &[u8],
    places: &[u32],
    s: State,
    index: u32,
) -> io::Result<State> {
    let a = placed::get_type_size(types, places, s.size, TypeIndex(index));
    size_line(rt, s.number, a)?;
    Ok(s)
}

// Behind a command that prints a line.
fn behind(s: State, width: usize) -> State {
    State {
        at: s.at.wrapping_add(width),
        number: s.number.wrapping_add(1),
        ..s
    }
}

// A function's name stands behind the index: 16 bytes, or up to a zero.
fn named_text(
    rt: &impl Print,
    types: &[u8],
    places: &[u32],
    sheet: &[u8],
    s: State,
    index: u32,
) -> io::Result<State> {
    let start = s.at.wrapping_add(5);
    let end = sheet::command::name_end(sheet, start);
    let len = end.wrapping_sub(start);
    let name = name_of(sheet, Name { start, len });
    function_text(rt, types, places, behind(s, 21), name, index)
}

// The line of an unknown or cut command; the sheet is at its end.
fn faulty(rt: &impl Print, sheet: &[u8], s: State, byte: u8) -> io::Result<State> {
    decimal(rt, b"", s.number.wrapping_add(1))?;
    refused(rt, Refusal::UnknownCommand(byte as u32))?;
    say(rt, b"\n")?;
    Ok(State {
        at: sheet.len(),
        ..s
    })
}

fn step(
    rt: &impl Print,
    types: &[u8],
    ids: &[u8],
    places: &[u32],
    sheet: &[u8],
    s: State,
) -> io::Result<State> {
    match sheet::command::command_at(sheet, s.at) {
        Command::End => Ok(s),
        Command::Flags(flags) => Ok(State {
            at: s.at.wrapping_add(5),
            flags,
            ..s
        }),
        Command::PointerSize(size) => Ok(State {
            at: s.at.wrapping_add(2),
            size,
            ..s
        }),
        Command::TypeText(i) => type_text(rt, types, places, behind(s, 5), i),
        Command::TypeSize(i) => type_size(rt, types, places, behind(s, 5), i),
        Command::IdText(i) => id_text(rt, types, ids, places, behind(s, 5), i),
        Command::FunctionText(i) => named_text(rt, types, places, sheet, s, i),
        Command::Faulty(b) => faulty(rt, sheet, s, b),
    }
}

// All lines of a sheet: flags 0 and pointer size 8 until it says otherwise.
fn run(rt: &impl Print, types: &[u8], ids: &[u8], places: &[u32], sheet: &[u8]) -> io::Result<()> {
    let mut s = State {
        at: 0,
        number: 0,
        flags: 0,
        size: 8,
    };
    while s.at < sheet.len() {
        let t = step(rt, types, ids, places, sheet, s)?;
        if t.at <= s.at {
            return Ok(());
        }
        s = t;
    }
    Ok(())
}

fn entries(rt: &impl Print, places: &[u32], count: usize) -> io::Result<()> {
    for place in places.iter().take(count) {
        decimal(rt, b" ", u64::from(*place))?;
    }
    Ok(())
}

fn zeros(rt: &impl Print, right: bool) -> io::Result<()> {
    if right {
        return say(rt, b" zeros");
    }
    judge(rt, right)
}

fn places_answer(rt: &impl Print, places: &[u32], a: Result<usize, Refusal>) -> io::Result<()> {
    match a {
        Ok(n) => {
            say(rt, b" 0 0x0")?;
            entries(rt, places, n)?;
            judge(rt, all_entries(places, n, 0xaaaa_aaaa))
        }
        Err(f) => {
            refused(rt, f)?;
            zeros(rt, all_entries(places, 0, 0))
        }
    }
}

// A line of the pass, on a buffer of just the entries that are lent.
fn pass_line(rt: &impl Print, types: &[u8], places: &mut [u32]) -> io::Result<()> {
    fill_entries(places);
    decimal(rt, b"", places.len() as u64)?;
    let a = record_places::fill_places(types, places);
    places_answer(rt, places, a)?;
    say(rt, b"\n")
}

fn pass_within(rt: &impl Print, types: &[u8], places: &mut [u32], length: usize) -> io::Result<()> {
    let k = within(length, places);
    pass_line(rt, types, &mut places[..k])
}

// The pass on a buffer of so many entries, 64 at most.
fn pass(rt: &impl Print, types: &[u8], length: usize) -> io::Result<()> {
    let mut places = [0u32; 64];
    pass_within(rt, types, &mut places, length)
}

fn passes(rt: &impl Print, types: &[u8], lengths: &[u32]) -> io::Result<()> {
    for length in lengths {
        pass(rt, types, *length as usize)?;
    }
    Ok(())
}

// The sheet of a case; its calls are lent the places of the case.
fn show_sheet<R: Files + Print + Eprint>(
    rt: &R,
    name: &[u8],
    types: &[u8],
    ids: &[u8],
    sheet: &[u8],
) -> io::Result<()> {
    let mut bytes = sheet_printer::room();
    let n = load_named(rt, name, b"-places.bin", &mut bytes)?;
    let mut places = [0u32; 4096];
    let count = numbers(&bytes[..n], &mut places);
    let k = within(count, &places);
    run(rt, types, ids, &places[..k], sheet)
}

// The pass, on a buffer of each length of the case.
fn show_passes<R: Files + Print + Eprint>(rt: &R, name: &[u8], types: &[u8]) -> io::Result<()> {
    let mut bytes = files::buffer();
    let n = load_named(rt, name, b"-lengths.bin", &mut bytes)?;
    let mut lengths = [0u32; 64];
    let count = numbers(&bytes[..n], &mut lengths);
    let k = within(count, &lengths);
    passes(rt, types, &lengths[..k])
}

fn show_case<R: Files + Print + Eprint>(rt: &R, name: &[u8]) -> io::Result<()> {
    title(rt, name)?;
    let mut types = sheet_printer::room();
    let t = load_named(rt, name, b"-types.bin", &mut types)?;
    let mut ids = sheet_printer::room();
    let u = load_named(rt, name, b"-ids.bin", &mut ids)?;
    let mut sheet = sheet_printer::room();
    let n = load_named(rt, name, b"-sheet.bin", &mut sheet)?;
    show_sheet(rt, name, &types[..t], &ids[..u], &sheet[..n])?;
    show_passes(rt, name, &types[..t])
}

fn main(rt: HostRuntime) -> io::Result<()> {
    files::for_each_argument(&rt, |name| show_case(&rt, name))
}
