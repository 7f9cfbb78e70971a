// Runs lists of calls over small streams and prints a line for each call.
// An argument NAME stands for NAME-types.bin, NAME-ids.bin and NAME-calls.bin; data/README.md has the form of the last.
#![tactic(auto)]

use codeview::index::{IdIndex, TypeIndex};
use files::{all, decimal, fill, hex, judge, refused, say, title, within};
use std::io;
use std::rt::Files;
use streams::refusal::Refusal;

// Where a list of calls has been read to, how many calls it made, and what holds for the next one.
#[derive(Clone, Copy)]
struct State {
    at: usize,
    number: u64,
    flags: u32,
    size: u32,
    room: usize,
}

// The sum of all sums from the start, modulo 2^32.
fn checksum(text: &[u8]) -> u32 {
    let mut sum: u32 = 0;
    let mut sums: u32 = 0;
    for b in text {
        sum = sum.wrapping_add(u32::from(*b));
        sums = sums.wrapping_add(sum);
    }
    sums
}

// A long text is printed by its length, sum and first bytes.
fn show(rt: &impl Print, text: &[u8]) -> io::Result<()> {
    if text.len() <= 200 {
        say(rt, b" ")?;
        say(rt, text)?;
        return Ok(());
    }
    decimal(rt, b" length ", text.len() as u64)?;
    hex(rt, b" sum 0x", checksum(text))?;
    say(rt, b" start ")?;
    let k = within(60, text);
    say(rt, &text[..k])
}

fn text_answer(rt: &impl Print, out: &[u8], a: Result<usize, Refusal>) -> io::Result<()> {
    match a {
        Ok(n) => {
            say(rt, b" 0 0x0")?;
            let k = within(n, out);
            show(rt, &out[..k])?;
            judge(rt, all(out, n, 0xaa))
        }
        Err(f) => {
            refused(rt, f)?;
            judge(rt, all(out, 0, 0))
        }
    }
}

fn size_answer(rt: &impl Print, a: Result<u64, Refusal>) -> io::Result<()> {
    match a {
        Ok(n) => decimal(rt, b" 0 0x0 ", n),
        Err(f) => refused(rt, f),
    }
}

fn type_call(
    rt: &impl Print,
    types: &[u8],
    out: &mut [u8],
    s: State,
    index: u32,
) -> io::Result<()> {
    let a = type_formatter::format_type(types, out, s.flags, s.size, TypeIndex(index));
    text_answer(rt, out, a)
}

fn id_call(
    rt: &impl Print,
    types: &[u8],
    ids: &[u8],
    out: &mut [u8],
    s: State,
    index: u32,
) -> io::Result<()> {
    let a = type_formatter::format_id(types, ids, out, s.flags, s.size, IdIndex(index));
    text_answer(rt, out, a)
}

fn function_call(
    rt: &impl Print,
    types: &[u8],
    out: &mut [u8],
    s: State,
    name: &[u8],
    index: u32,
) -> io::Result<()> {
    let a = type_formatter::format_function(types, out, s.flags, s.size, name, TypeIndex(index));
    text_answer(rt, out, a)
}

fn size_call(rt: &impl Print, types: &[u8], s: State, index: u32) -> io::Result<()> {
    size_answer(
        rt,
        type_formatter::get_type_size(types, s.size, TypeIndex(index)),
    )
}

// Copies bytes as far as both slices reach, and answers how many.
fn copy(from: &[u8], start: usize, count: usize, to: &mut [u8]) -> usize {
    let rest = from.get(start..).unwrap_or(b"");
    let n = count.min(rest.len()).min(to.len());
    to[..n].copy_from_slice(&rest[..n]);
    n
}

// The call that a command stands for; a function's call alone has a name.
fn chosen(
    rt: &impl Print,
    types: &[u8],
    ids: &[u8],
    out: &mut [u8],
    s: State,
    command: u8,
    name: &[u8],
    index: u32,
) -> io::Result<()> {
    match command {
        0x10 => type_call(rt, types, out, s, index),
        0x11 => size_call(rt, types, s, index),
        0x12 => id_call(rt, types, ids, out, s, index),
        _ => function_call(rt, types, out, s, name, index),
    }
}

// A line for a call, on a buffer of just the length that is set.
fn call_with(
    rt: &impl Print,
    types: &[u8],
    ids: &[u8],
    out: &mut [u8],
    s: State,
    command: u8,
    name: &[u8],
    index: u32,
) -> io::Result<()> {
    fill(out);
    decimal(rt, b"", s.number)?;
    chosen(rt, types, ids, out, s, command, name, index)?;
    say(rt, b"\n")
}

fn call_within(
    rt: &impl Print,
    types: &[u8],
    ids: &[u8],
    out: &mut [u8],
    s: State,
    command: u8,
    name: &[u8],
    index: u32,
) -> io::Result<()> {
    let k = within(s.room, out);
    call_with(rt, types, ids, &mut out[..k], s, command, name, index)
}

fn call(
    rt: &impl Print,
    types: &[u8],
    ids: &[u8],
    s: State,
    command: u8,
    name: &[u8],
    n: usize,
    index: u32,
) -> io::Result<()> {
    let k = within(n, name);
    let mut out = files::buffer();
    call_within(rt, types, ids, &mut out, s, command, &name[..k], index)
}

// The state behind a command: it stands further on, and a call has been counted or not.
fn behind(s: State, at: usize, calls: u64) -> State {
    State {
        at,
        number: s.number.wrapping_add(calls),
        ..s
    }
}

// A list of calls that cannot be read on is left.
fn broken(rt: &impl Print, calls: &[u8], s: State) -> io::Result<State> {
    say(rt, b"calls broken\n")?;
    Ok(behind(s, calls.len(), 0))
}

// A function's call has its name behind the index: a length and so many bytes.
fn named_call(
    rt: &impl Print,
    types: &[u8],
    calls: &[u8],
    s: State,
    index: u32,
) -> io::Result<State> {
    let at = s.at;
    if calls.len() <= at {
        return broken(rt, calls, s);
    }
    let count = usize::from(calls[at]);
    let start = at.wrapping_add(1);
    let mut name = files::buffer();
    let n = copy(calls, start, count, &mut name);
    let t = behind(s, start.wrapping_add(n), 1);
    call(rt, types, b"", t, 0x13, &name, n, index)?;
    Ok(t)
}

fn plain_call(
    rt: &impl Print,
    types: &[u8],
    ids: &[u8],
    s: State,
    command: u8,
    index: u32,
) -> io::Result<State> {
    let t = behind(s, s.at, 1);
    call(rt, types, ids, t, command, b"", 0, index)?;
    Ok(t)
}

// A command whose byte and number have been read; the state stands behind them.
fn act(
    rt: &impl Print,
    types: &[u8],
    ids: &[u8],
    calls: &[u8],
    s: State,
    command: u8,
    value: u32,
) -> io::Result<State> {
    match command {
        0x01 => Ok(State { flags: value, ..s }),
        0x02 => Ok(State { size: value, ..s }),
        0x03 => Ok(State {
            room: value as usize,
            ..s
        }),
        0x10..=0x12 => plain_call(rt, types, ids, s, command, value),
        0x13 => named_call(rt, types, calls, s, value),
        _ => broken(rt, calls, s),
    }
}

fn step(rt: &impl Print, types: &[u8], ids: &[u8], calls: &[u8], s: State) -> io::Result<State> {
    let at = s.at;
    if calls.len() <= at {
        return Ok(s);
    }
    let command = calls[at];
    let t = behind(s, at.wrapping_add(5), 0);
    match wire::field::field_at::<u32>(calls, at.wrapping_add(1)) {
        Some(value) => act(rt, types, ids, calls, t, command, value),
        None => broken(rt, calls, s),
    }
}

// All calls of a list: flags 0, pointer size 8 and 4,096 bytes of buffer until it says otherwise.
fn run(rt: &impl Print, types: &[u8], ids: &[u8], calls: &[u8]) -> io::Result<()> {
    let mut s = State {
        at: 0,
        number: 0,
        flags: 0,
        size: 8,
        room: 4096,
    };
    while s.at < calls.len() {
        let t = step(rt, types, ids, calls, s)?;
        if t.at <= s.at {
            return Ok(());
        }
        s = t;
    }
    Ok(())
}

// Room for a type stream.
fn room() -> [u8; 131_072] {
    [0u8; 131_072]
}

// Most cases have no ids, so nothing is said of a file that is not there.
fn show_case<R: Files + Print + Eprint>(rt: &R, name: &[u8]) -> io::Result<()> {
    title(rt, name)?;
    let mut types = room();
    let t = files::load_if_there(rt, name, b"-types.bin", &mut types)?;
    let mut ids = files::large_buffer();
    let u = files::load_if_there(rt, name, b"-ids.bin", &mut ids)?;
    let mut calls = files::large_buffer();
    let c = files::load_if_there(rt, name, b"-calls.bin", &mut calls)?;
    if c == 0 {
        rt.eprint("cases: no calls\n")?;
    }
    run(rt, &types[..t], &ids[..u], &calls[..c])
}

fn main(rt: HostRuntime) -> io::Result<()> {
    files::for_each_argument(&rt, |name| show_case(&rt, name))
}
