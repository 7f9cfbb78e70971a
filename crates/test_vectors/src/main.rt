// Prints the texts of every id, type and function type and the size of every type of pairs of streams.
// An argument NAME stands for NAME-types.bin and NAME-ids.bin.
#![tactic(auto)]

use codeview::index::{IdIndex, TypeIndex};
use files::{decimal, hex, refused, say};
use std::io;
use std::rt::Files;
use streams::chains::check_stream;
use streams::refusal::{Refusal, StreamKind};

// Which of the four calls is made.
#[derive(Clone, Copy)]
enum Call {
    Id,
    Type,
    Function,
    Size,
}

fn show(rt: &impl Print, out: &[u8], n: usize) -> io::Result<()> {
    say(rt, b" 0 0x0 ")?;
    let k = files::within(n, out);
    say(rt, &out[..k])
}

fn text_answer(rt: &impl Print, out: &[u8], a: Result<usize, Refusal>) -> io::Result<()> {
    match a {
        Ok(n) => show(rt, out, n),
        Err(f) => refused(rt, f),
    }
}

fn id_call(rt: &impl Print, types: &[u8], ids: &[u8], flags: u32, index: u32) -> io::Result<()> {
    let mut out = files::buffer();
    let a = type_formatter::format_id(types, ids, &mut out, flags, 8, IdIndex(index));
    text_answer(rt, &out, a)
}

fn type_call(rt: &impl Print, types: &[u8], flags: u32, index: u32) -> io::Result<()> {
    let mut out = files::buffer();
    let a = type_formatter::format_type(types, &mut out, flags, 8, TypeIndex(index));
    text_answer(rt, &out, a)
}

fn function_call(rt: &impl Print, types: &[u8], flags: u32, index: u32) -> io::Result<()> {
    let mut out = files::buffer();
    let a = type_formatter::format_function(types, &mut out, flags, 8, b"f", TypeIndex(index));
    text_answer(rt, &out, a)
}

fn size_call(rt: &impl Print, types: &[u8], index: u32) -> io::Result<()> {
    match type_formatter::get_type_size(types, 8, TypeIndex(index)) {
        Ok(n) => decimal(rt, b" 0 0x0 ", n),
        Err(f) => refused(rt, f),
    }
}

fn line(
    rt: &impl Print,
    types: &[u8],
    ids: &[u8],
    call: Call,
    flags: u32,
    index: u32,
) -> io::Result<()> {
    hex(rt, b"0x", index)?;
    match call {
        Call::Id => id_call(rt, types, ids, flags, index)?,
        Call::Type => type_call(rt, types, flags, index)?,
        Call::Function => function_call(rt, types, flags, index)?,
        Call::Size => size_call(rt, types, index)?,
    }
    say(rt, b"\n")
}

fn lines(
    rt: &impl Print,
    types: &[u8],
    ids: &[u8],
    call: Call,
    flags: u32,
    first: u32,
    end: u32,
) -> io::Result<()> {
    for index in first..end {
        line(rt, types, ids, call, flags, index)?;
    }
    Ok(())
}

fn all_types(rt: &impl Print, types: &[u8], call: Call, flags: u32) -> io::Result<()> {
    let mut places = [0u32; 1];
    let a = check_stream(types, StreamKind::Types, &mut places);
    match a.check {
        Ok(stream) => lines(rt, types, b"", call, flags, stream.first, stream.end),
        Err(_) => say(rt, b"types refused\n"),
    }
}

fn all_ids(rt: &impl Print, types: &[u8], ids: &[u8], flags: u32) -> io::Result<()> {
    let mut places = [0u32; 1];
    let a = check_stream(ids, StreamKind::Ids, &mut places);
    match a.check {
        Ok(stream) => lines(rt, types, ids, Call::Id, flags, stream.first, stream.end),
        Err(_) => say(rt, b"ids refused\n"),
    }
}

fn title(rt: &impl Print, what: &[u8], flags: u32) -> io::Result<()> {
    say(rt, what)?;
    hex(rt, b" flags 0x", flags)?;
    say(rt, b"\n")
}

fn texts(rt: &impl Print, types: &[u8], ids: &[u8], flags: u32) -> io::Result<()> {
    title(rt, b"ids", flags)?;
    all_ids(rt, types, ids, flags)?;
    title(rt, b"types", flags)?;
    all_types(rt, types, Call::Type, flags)?;
    title(rt, b"functions", flags)?;
    all_types(rt, types, Call::Function, flags)
}

// Flags: none; NO_FUNCTION_RETURN and NO_ARGUMENTS; the other four together; all six.
fn report(rt: &impl Print, types: &[u8], ids: &[u8]) -> io::Result<()> {
    texts(rt, types, ids, 0)?;
    texts(rt, types, ids, 0b10_0001)?;
    texts(rt, types, ids, 0b01_1110)?;
    texts(rt, types, ids, 0b11_1111)?;
    say(rt, b"sizes\n")?;
    all_types(rt, types, Call::Size, 0)
}

fn show_pair<R: Files + Print + Eprint>(rt: &R, name: &[u8]) -> io::Result<()> {
    say(rt, b"== ")?;
    say(rt, name)?;
    say(rt, b"\n")?;
    let mut types = files::large_buffer();
    let t = files::load_named(rt, name, b"-types.bin", &mut types)?;
    let mut ids = files::large_buffer();
    let u = files::load_named(rt, name, b"-ids.bin", &mut ids)?;
    report(rt, &types[..t], &ids[..u])
}

fn usage(rt: &impl Eprint) -> io::Result<()> {
    rt.eprint(
        "test_vectors: prints the texts and sizes of pairs of streams\nusage: test_vectors NAME...    for NAME-types.bin and NAME-ids.bin, as `llvm-pdbutil export` writes them\n",
    )
}

fn main(rt: HostRuntime) -> io::Result<()> {
    if files::argument_count(&rt) < 2 {
        usage(&rt)?;
    }
    files::for_each_argument(&rt, |name| show_pair(&rt, name))
}
