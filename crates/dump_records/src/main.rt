// Prints the records of type and id streams as plain tables: a line for each record with its index, its kind and what was decoded.
// Arguments come in pairs: `types FILE` or `ids FILE`.
#![tactic(auto)]

ghost use Rattle.std.specs.Prelude.{◌<◌};

use codeview::index::{IdIndex, TypeIndex};
use codeview::record::{
    ArrayType, ClassKind, ClassType, Entries, EnumerateType, EnumerationType, FunctionId, IdData,
    MemberFunctionId, MemberFunctionType, ModifierType, PointerMode, PointerType, ProcedureType,
    StringId, TypeData, UnionType,
};
use files::say;
use std::io;
use std::rt::{Env, Files};
use streams::bounds::{bounds_of, look_up_in};
use streams::chains::check_stream;
use streams::refusal::{Refusal, StreamKind};
use wire::field::field_at;
use wire::name::Name;

fn hex(rt: &impl Print, label: &[u8], n: u32) -> io::Result<()> {
    say(rt, label)?;
    print!(rt; "0x{n:x}")
}

fn decimal(rt: &impl Print, label: &[u8], n: u64) -> io::Result<()> {
    say(rt, label)?;
    rt.print(n)
}

fn mark(rt: &impl Print, on: bool, label: &[u8]) -> io::Result<()> {
    if on {
        say(rt, label)?;
    }
    Ok(())
}

// A byte of a name; what is not a plain character is printed as its number.
fn letter(rt: &impl Print, b: u8) -> io::Result<()> {
    match b {
        0x20..=0x7e => say(rt, &[b]),
        _ => print!(rt; "\\x{b:02x}"),
    }
}

fn letters(rt: &impl Print, s: &[u8], start: usize, len: usize) -> io::Result<()> {
    for b in s.iter().skip(start).take(len) {
        letter(rt, *b)?;
    }
    Ok(())
}

fn name(rt: &impl Print, s: &[u8], label: &[u8], n: Name) -> io::Result<()> {
    say(rt, label)?;
    say(rt, b"`")?;
    letters(rt, s, n.start, n.len)?;
    say(rt, b"`")
}

fn unique(rt: &impl Print, s: &[u8], u: Option<Name>) -> io::Result<()> {
    if let Some(n) = u {
        name(rt, s, b" unique=", n)?;
    }
    Ok(())
}

fn entry(rt: &impl Print, n: u32) -> io::Result<()> {
    hex(rt, b" ", n)
}

fn list(rt: &impl Print, s: &[u8], e: Entries) -> io::Result<()> {
    let mut at = e.start;
    for _ in 0..e.count {
        let Some(n) = field_at::<u32>(s, at) else {
            return Ok(());
        };
        entry(rt, n)?;
        at = at.wrapping_add(4);
    }
    Ok(())
}

fn modifier(rt: &impl Print, m: ModifierType) -> io::Result<()> {
    hex(rt, b" modifier of=", m.underlying.0)?;
    mark(rt, m.constant, b" const")?;
    mark(rt, m.volatile, b" volatile")?;
    mark(rt, m.unaligned, b" unaligned")
}

fn pointer(rt: &impl Print, p: PointerType) -> io::Result<()> {
    hex(rt, b" pointer to=", p.underlying.0)?;
    let mode = p.mode;
    match mode {
        PointerMode::Pointer => say(rt, b" mode=pointer")?,
        PointerMode::LValueReference => say(rt, b" mode=reference")?,
        PointerMode::Member => hex(rt, b" mode=member class=", p.class.0)?,
        PointerMode::MemberFunction => hex(rt, b" mode=function class=", p.class.0)?,
        PointerMode::RValueReference => say(rt, b" mode=rvalue")?,
    }
    decimal(rt, b" size=", p.size as u64)?;
    mark(rt, p.constant, b" const")?;
    mark(rt, p.volatile, b" volatile")
}

fn procedure(rt: &impl Print, p: ProcedureType) -> io::Result<()> {
    hex(rt, b" procedure result=", p.result.0)?;
    hex(rt, b" arguments=", p.arguments.0)?;
    decimal(rt, b" parameters=", p.parameters as u64)?;
    mark(rt, p.constructor, b" constructor")
}

fn method(rt: &impl Print, m: MemberFunctionType) -> io::Result<()> {
    hex(rt, b" method result=", m.result.0)?;
    hex(rt, b" class=", m.class.0)?;
    hex(rt, b" this=", m.this.0)?;
    hex(rt, b" arguments=", m.arguments.0)?;
    decimal(rt, b" parameters=", m.parameters as u64)?;
    decimal(rt, b" adjustment=", m.adjustment as u64)?;
    mark(rt, m.constructor, b" constructor")
}

fn enumerate(rt: &impl Print, s: &[u8], e: EnumerateType) -> io::Result<()> {
    decimal(rt, b" enumerate bits=", e.value)?;
    decimal(rt, b" width=", e.width as u64)?;
    name(rt, s, b" name=", e.name)
}

fn array(rt: &impl Print, s: &[u8], a: ArrayType) -> io::Result<()> {
    hex(rt, b" array of=", a.element.0)?;
    hex(rt, b" by=", a.indexing.0)?;
    decimal(rt, b" size=", a.size)?;
    name(rt, s, b" name=", a.name)
}

fn class(rt: &impl Print, s: &[u8], c: ClassType) -> io::Result<()> {
    let kind = c.kind;
    match kind {
        ClassKind::Class => say(rt, b" class")?,
        ClassKind::Struct => say(rt, b" struct")?,
        ClassKind::Interface => say(rt, b" interface")?,
    }
    decimal(rt, b" size=", c.size)?;
    hex(rt, b" fields=", c.fields.0)?;
    hex(rt, b" derived=", c.derived.0)?;
    hex(rt, b" shape=", c.shape.0)?;
    mark(rt, c.forward, b" forward")?;
    name(rt, s, b" name=", c.name)?;
    unique(rt, s, c.unique)
}

fn union_type(rt: &impl Print, s: &[u8], u: UnionType) -> io::Result<()> {
    decimal(rt, b" union size=", u.size)?;
    hex(rt, b" fields=", u.fields.0)?;
    mark(rt, u.forward, b" forward")?;
    name(rt, s, b" name=", u.name)?;
    unique(rt, s, u.unique)
}

fn enumeration(rt: &impl Print, s: &[u8], e: EnumerationType) -> io::Result<()> {
    hex(rt, b" enum of=", e.underlying.0)?;
    hex(rt, b" fields=", e.fields.0)?;
    mark(rt, e.forward, b" forward")?;
    name(rt, s, b" name=", e.name)?;
    unique(rt, s, e.unique)
}

fn type_data(rt: &impl Print, s: &[u8], t: TypeData) -> io::Result<()> {
    match t {
        TypeData::Primitive(_) => say(rt, b" primitive"),
        TypeData::Modifier(m) => modifier(rt, m),
        TypeData::Pointer(p) => pointer(rt, p),
        TypeData::Procedure(p) => procedure(rt, p),
        TypeData::MemberFunction(m) => method(rt, m),
        TypeData::ArgumentList(e) => {
            say(rt, b" arguments")?;
            list(rt, s, e)
        }
        TypeData::Enumerate(e) => enumerate(rt, s, e),
        TypeData::Array(a) => array(rt, s, a),
        TypeData::Class(c) => class(rt, s, c),
        TypeData::Union(u) => union_type(rt, s, u),
        TypeData::Enumeration(e) => enumeration(rt, s, e),
        TypeData::Unhandled(_) => say(rt, b" unhandled"),
    }
}

fn function_id(rt: &impl Print, s: &[u8], f: FunctionId) -> io::Result<()> {
    hex(rt, b" function scope=", f.scope.0)?;
    hex(rt, b" type=", f.function.0)?;
    name(rt, s, b" name=", f.name)
}

fn member_id(rt: &impl Print, s: &[u8], m: MemberFunctionId) -> io::Result<()> {
    hex(rt, b" member parent=", m.parent.0)?;
    hex(rt, b" type=", m.function.0)?;
    name(rt, s, b" name=", m.name)
}

fn string_id(rt: &impl Print, s: &[u8], t: StringId) -> io::Result<()> {
    hex(rt, b" string list=", t.list.0)?;
    name(rt, s, b" name=", t.name)
}

fn id_data(rt: &impl Print, s: &[u8], d: IdData) -> io::Result<()> {
    match d {
        IdData::Function(f) => function_id(rt, s, f),
        IdData::MemberFunction(m) => member_id(rt, s, m),
        IdData::StringList(e) => {
            say(rt, b" strings")?;
            list(rt, s, e)
        }
        IdData::String(t) => string_id(rt, s, t),
        IdData::Unhandled(_) => say(rt, b" unhandled"),
    }
}

// Why a record was not decoded.
fn refused(rt: &impl Print, f: Refusal) -> io::Result<()> {
    match f {
        Refusal::Malformed(_) => say(rt, b" malformed"),
        Refusal::UnlistedKind(_) => say(rt, b" unlisted"),
        _ => say(rt, b" missing"),
    }
}

fn type_line(
    rt: &impl Print,
    s: &[u8],
    bounds: &[u32],
    places: &[u32],
    index: u32,
) -> io::Result<()> {
    match codeview::types::type_at(s, bounds, places, TypeIndex(index)) {
        Ok(t) => type_data(rt, s, t),
        Err(f) => refused(rt, f),
    }
}

fn id_line(
    rt: &impl Print,
    s: &[u8],
    bounds: &[u32],
    places: &[u32],
    index: u32,
) -> io::Result<()> {
    match codeview::ids::id_at(s, bounds, places, IdIndex(index)) {
        Ok(d) => id_data(rt, s, d),
        Err(f) => refused(rt, f),
    }
}

fn line(
    rt: &impl Print,
    s: &[u8],
    bounds: &[u32],
    places: &[u32],
    which: StreamKind,
    index: u32,
) -> io::Result<()> {
    hex(rt, b"", index)?;
    if let Ok(record) = look_up_in(s, bounds, places, which, index) {
        hex(rt, b" ", u32::from(record.kind))?;
    }
    match which {
        StreamKind::Types => type_line(rt, s, bounds, places, index)?,
        StreamKind::Ids => id_line(rt, s, bounds, places, index)?,
    }
    say(rt, b"\n")
}

fn lines(
    rt: &impl Print,
    s: &[u8],
    bounds: &[u32],
    places: &[u32],
    which: StreamKind,
    first: u32,
    end: u32,
) -> io::Result<()> {
    for index in first..end {
        line(rt, s, bounds, places, which, index)?;
    }
    Ok(())
}

// The one stream stands for both. Its places are the types'; ids are walked to from the first.
fn table(rt: &impl Print, s: &[u8], which: StreamKind) -> io::Result<()> {
    let mut places = [0u32; 256];
    let a = check_stream(s, which, &mut places);
    match a.check {
        Ok(stream) => {
            let bounds = bounds_of(a, a, 0);
            lines(rt, s, &bounds, &places, which, stream.first, stream.end)
        }
        Err(f) => {
            decimal(rt, b"refused ", f.number() as u64)?;
            hex(rt, b" ", f.detail())?;
            say(rt, b"\n")
        }
    }
}

// Room for a stream.
fn room() -> [u8; 1_048_576] {
    [0u8; 1_048_576]
}

// A file as a table. Of one that is longer than the buffer only the start is read, and that is said.
fn show<R: Files + Print + Eprint>(rt: &R, path: &[u8], which: StreamKind) -> io::Result<()> {
    let mut buffer = room();
    let Some(n) = files::load_opened(rt, path, &mut buffer)? else {
        return Ok(());
    };
    if n == 1_048_576 {
        eprintln!(rt; "dump_records: only the first 1,048,576 bytes are read")?;
    }
    table(rt, &buffer[..n], which)
}

// The table of a file, under a line that names it.
fn titled<R: Files + Print + Eprint>(rt: &R, word: &[u8], path: &[u8]) -> io::Result<()> {
    say(rt, word)?;
    say(rt, b" ")?;
    say(rt, path)?;
    say(rt, b"\n")?;
    if word == b"ids".as_slice() {
        show(rt, path, StreamKind::Ids)
    } else {
        show(rt, path, StreamKind::Types)
    }
}

fn usage(rt: &impl Eprint) -> io::Result<()> {
    eprintln!(rt; "dump_records: prints the records of type and id streams")?;
    eprintln!(rt;
        "usage: dump_records types FILE | ids FILE ...    streams 2 and 4 of a .pdb, as `llvm-pdbutil export` writes them"
    )
}

fn pair<R: Env + Files + Print + Eprint>(rt: &R, i: usize) -> io::Result<()>
    requires { i < 4096 }
{
    let mut word = files::buffer();
    let n = files::argument(rt, i, &mut word).unwrap_or(0);
    let mut path = files::buffer();
    let m = files::argument(rt, i + 1, &mut path).unwrap_or(0);
    if &word[..n] == b"types".as_slice() {
        return titled(rt, &word[..n], &path[..m]);
    }
    if &word[..n] == b"ids".as_slice() {
        return titled(rt, &word[..n], &path[..m]);
    }
    usage(rt)
}

// Words come with their files, so with the program's own name the number of arguments is odd.
fn main(rt: HostRuntime) -> io::Result<()> {
    let count = files::argument_count(&rt);
    if (count < 3) | (count % 2 == 0) {
        return usage(&rt);
    }
    for i in (1..count.min(4096)).step_by(2) {
        pair(&rt, i)?;
    }
    Ok(())
}
