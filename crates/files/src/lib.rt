// What the programs share: arguments, reading files up to a limit, printing bytes, numbers and refusals, and a look at what a call left of a buffer. No
// contract can say what is read or printed.
#![tactic(auto)]

ghost use Rattle.std.specs.Prelude.{◌≡◌, IfOk, IfSome, length, min};
ghost use Rattle.files.specs.Counts.{IsPrefixLen};

use std::env::FillError;
use std::io::{Cursor, Read, Write};
use std::rt::{Env, Files};
use std::{fs, io, str};
use streams::refusal::Refusal;
use wire::field::field_at;

// Room for a path or an argument.
pub fn buffer() -> [u8; 4096]
    ensures { 4096 ≡ length result }
{
    [0; 4096]
}

pub fn large_buffer() -> [u8; 65_536]
    ensures { 65536 ≡ length result }
{
    [0; 65_536]
}

// Puts an argument of the program at the start of a slice and answers its length, or 0 where it is longer than the slice.
pub fn argument(rt: &impl Env, i: usize, room: &mut [u8]) -> Option<usize>
    ensures { IfSome result (λ n. IsPrefixLen n room.new) }
{
    match rt.arg(i, room) {
        Ok(n) => Some(n),
        Err(FillError::TooLong) => Some(0),
        Err(FillError::NotPresent) => None,
    }
}

// Hands each argument of the program, without the program's own name, to `show`.
pub fn for_each_argument<F: Fn(&[u8]) -> io::Result<()>>(rt: &impl Env, show: F) -> io::Result<()>
    requires { F.IsAlwaysCallable show }
{
    let mut name = buffer();
    for i in 1..usize::MAX {
        let Some(n) = argument(rt, i, &mut name) else {
            break;
        };
        show(&name[..n])?;
    }
    Ok(())
}

// How many arguments there are, the program's own name among them.
pub fn argument_count(rt: &impl Env) -> usize {
    let mut none = [0u8; 1];
    for i in 0..usize::MAX {
        if argument(rt, i, &mut none).is_none() {
            return i;
        }
    }
    usize::MAX
}

// Prints bytes on standard output.
pub fn say(rt: &impl Print, text: &[u8]) -> io::Result<()> {
    rt.write_all(text)
}

// A label and a number behind it.
pub fn decimal(rt: &impl Print, label: &[u8], n: u64) -> io::Result<()> {
    say(rt, label)?;
    rt.print(n)
}

pub fn hex(rt: &impl Print, label: &[u8], n: u32) -> io::Result<()> {
    say(rt, label)?;
    print!(rt; "{n:x}")
}

// Number and detail of a refusal.
pub fn refused(rt: &impl Print, f: Refusal) -> io::Result<()> {
    decimal(rt, b" ", u64::from(f.number()))?;
    hex(rt, b" 0x", f.detail())
}

// The line before what is printed of a case.
pub fn title(rt: &impl Print, name: &[u8]) -> io::Result<()> {
    say(rt, b"== ")?;
    say(rt, name)?;
    say(rt, b"\n")
}

// A buffer is lent full of this byte, so that what a call leaves alone can be seen.
pub fn fill(out: &mut [u8]) {
    out.fill(0xaa);
}

// Whether all bytes from a place on are this one.
pub fn all(out: &[u8], from: usize, byte: u8) -> bool {
    out.iter().skip(from).all(|b| *b == byte)
}

pub fn judge(rt: &impl Print, right: bool) -> io::Result<()> {
    if right {
        return Ok(());
    }
    say(rt, b" buffer wrong")
}

// A number, or a slice's length where that is less.
pub fn within<T>(n: usize, s: &[T]) -> usize
    ensures prefix_len { IsPrefixLen result s.now }
    ensures value { result ≡ min n (length s.now) }
{
    n.min(s.len())
}

// The numbers in bytes, as many as there is room for, and how many these are.
pub fn numbers(from: &[u8], to: &mut [u32]) -> usize {
    let mut at = 0;
    for (n, place) in to.iter_mut().enumerate() {
        let Some(value) = field_at::<u32>(from, at) else {
            return n;
        };
        *place = value;
        at = at.wrapping_add(4);
    }
    to.len()
}

// Puts an ending behind the first bytes of a path and answers the length of both, or 0 where there is no room.
fn join(path: &mut [u8], start: usize, ending: &[u8]) -> usize {
    let mut at = start;
    for b in ending {
        if path.len() <= at {
            return 0;
        }
        path[at] = *b;
        at += 1;
    }
    at
}

// A path of two parts, and its length.
fn make_path(path: &mut [u8], name: &[u8], ending: &[u8]) -> usize
    ensures { IsPrefixLen result path.new }
{
    let start = join(path, 0, name);
    let n = join(path, start, ending);
    within(n, path)
}

// As much of an open file as the slice takes, and how much that is.
fn take(mut file: impl Read + Drop, room: &mut [u8]) -> io::Result<usize>
    ensures read { IfOk result (λ n. IsPrefixLen n room.new) }
    ensures room_kept { length room.new ≡ length room.old }
{
    let mut done = 0;
    while done < room.len() {
        let n = file.read(&mut room[done..])?;
        if n == 0 {
            break;
        }
        done += n;
    }
    Ok(done)
}

// A file that is open for reading. A path that is not text has none.
fn open<R: Files>(rt: &R, path: &[u8]) -> io::Result<R::File> {
    match str::from_utf8(path) {
        Ok(text) => fs::open(rt, text),
        Err(_) => Err(io::Error::from(io::ErrorKind::InvalidFilename)),
    }
}

// The system's words for an error. Behind them the text of an error has its number in brackets, or where it has none the zeros of the buffer.
fn words(text: &[u8]) -> &str {
    let Ok(text) = str::from_utf8(text) else {
        return "";
    };
    if let Some((words, _)) = text.split_once(" (os error ") {
        return words;
    }
    match text.split_once("\0") {
        Some((words, _)) => words,
        None => text,
    }
}

// Names on standard error a file that can't be opened, and why.
fn fail(rt: &impl Eprint, path: &[u8], error: io::Error) -> io::Result<()> {
    let mut text = Cursor::new([0u8; 256]);
    write!(text, "{error}")?;
    let why = words(text.get_ref());
    match str::from_utf8(path) {
        Ok(name) => eprintln!(rt; "{name}: {why}"),
        Err(_) => eprintln!(rt; "{}: {why}", path.escape_ascii()),
    }
}

// As much of a file as the slice takes. Of one that can't be opened there is none, and it is named on standard error.
pub fn load_opened<R: Files + Eprint>(
    rt: &R,
    path: &[u8],
    room: &mut [u8],
) -> io::Result<Option<usize>>
    ensures read { IfOk result (λ o. IfSome o (λ n. IsPrefixLen n room.new)) }
    ensures room_kept { length room.new ≡ length room.old }
{
    match open(rt, path) {
        Ok(file) => {
            let n = take(file, room)?;
            Ok(Some(n))
        }
        Err(error) => {
            fail(rt, path, error)?;
            Ok(None)
        }
    }
}

// The same, but one that can't be opened counts as one of no bytes.
pub fn load<R: Files + Eprint>(rt: &R, path: &[u8], room: &mut [u8]) -> io::Result<usize>
    ensures read { IfOk result (λ n. IsPrefixLen n room.new) }
    ensures room_kept { length room.new ≡ length room.old }
{
    Ok(load_opened(rt, path, room)?.unwrap_or(0))
}

// The same of a file whose name is given in two parts.
pub fn load_named<R: Files + Eprint>(
    rt: &R,
    name: &[u8],
    ending: &[u8],
    room: &mut [u8],
) -> io::Result<usize>
    ensures read { IfOk result (λ n. IsPrefixLen n room.new) }
    ensures room_kept { length room.new ≡ length room.old }
{
    let mut path = buffer();
    let n = make_path(&mut path, name, ending);
    load(rt, &path[..n], room)
}

// The same, but nothing is said of a file that can't be opened.
pub fn load_if_there(
    rt: &impl Files,
    name: &[u8],
    ending: &[u8],
    room: &mut [u8],
) -> io::Result<usize>
    ensures read { IfOk result (λ n. IsPrefixLen n room.new) }
    ensures room_kept { length room.new ≡ length room.old }
{
    let mut path = buffer();
    let n = make_path(&mut path, name, ending);
    match open(rt, &path[..n]) {
        Ok(file) => take(file, room),
        Err(_) => Ok(0),
    }
}
