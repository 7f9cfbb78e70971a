// Sheets: lists of commands, each text or size asked for answered by a line.
#![tactic(auto)]

ghost use Rattle.std.specs.Prelude.{◌≡◌, false, ◌+◌, ◌-◌, ◌≤◌, ◌<◌, ltb, length};
ghost use Rattle.rules.specs.Places.{near_in};
ghost use Rattle.rules.specs.Record.{name_at};
ghost use Rattle.sheet.specs.Command.{given_name};
ghost use Rattle.sheet.specs.Sheet.{begin, after_of, behind_of, step_of, calls_over, function_line, line_of, sheet_fit, fit_over};
ghost use Rattle.sheet.specs.Printed.{placed, put_of, shown, laid_out, SheetContinues, ContinuesOver, Countable};

use crate::command::{Command, command_at, name_end};
use crate::line::{answer_line, refused_line, size_line};
use checked_calls::calls::{function_over, id_over, size_over, type_over};
use checked_calls::kept::keep_both;
use codeview::index::{IdIndex, TypeIndex};
use codeview::lent::Lent;
use leaf_writers::names::name_of;
use streams::refusal::Refusal;
use wire::bytes::copy;
use wire::name::Name;

pub mod command;
pub mod line;

// Where a sheet has been read to, how many lines that makes, and what holds for the next command.
#[derive(Clone, Copy)]
pub struct State {
    pub at: usize,
    pub lines: usize,
    pub flags: u32,
    pub size: u32,
}

// What a command does: nothing, at the end; set something; print the line of an unknown byte and end; print a line.
#[derive(Clone, Copy)]
pub enum Step {
    Over,
    Setting,
    Last(u8),
    Line,
}

// How many bytes and lines were printed, and whether lines are left that did not fit.
#[derive(Clone, Copy)]
pub struct Printed {
    pub bytes: usize,
    pub lines: usize,
    pub more: bool,
}

#[tactic(auto, unfolding(crate::specs::Sheet::step_of))]
fn step_of(c: Command) -> Step
    ensures { result ≡ step_of c }
{
    match c {
        Command::End => Step::Over,
        Command::Flags(_) | Command::PointerSize(_) => Step::Setting,
        Command::Faulty(b) => Step::Last(b),
        _ => Step::Line,
    }
}

// Behind a command that prints a line.
fn behind(s: State, width: usize) -> State
    requires { (s.at < 9223372036854775808) × ((s.lines < 9223372036854775808) × (width < 32)) }
    ensures { result ≡ behind_of s width }
{
    State {
        at: s.at + width,
        lines: s.lines + 1,
        ..s
    }
}

// Behind any command.
#[tactic(auto, unfolding(crate::specs::Sheet::after_of))]
fn after(s: State, c: Command) -> State
    requires { Countable s }
    ensures { result ≡ after_of s c }
{
    match c {
        Command::Flags(n) => State {
            at: s.at + 5,
            flags: n,
            ..s
        },
        Command::PointerSize(n) => State {
            at: s.at + 2,
            size: n,
            ..s
        },
        Command::FunctionText(_) => behind(s, 21),
        _ => behind(s, 5),
    }
}

fn done(bytes: usize, lines: usize, skip: usize, more: bool) -> Printed
    ensures { (result.bytes ≡ bytes) × ((result.lines ≡ lines - skip) × (result.more ≡ more)) }
{
    Printed {
        bytes,
        lines: lines.saturating_sub(skip),
        more,
    }
}

// The name of a function command, given the place of its 16 bytes.
fn given_name<'a>(sheet: &'a [u8], at: usize) -> &'a [u8]
    ensures { result.now ≡ given_name sheet.now at }
{
    let end = name_end(sheet, at);
    name_of(
        sheet,
        Name {
            start: at,
            len: end - at,
        },
    )
}

fn no_line() -> Name
    ensures { (result.start ≡ 0) × (result.len ≡ 0) }
{
    Name { start: 0, len: 0 }
}

// The line of a function command.
fn function_line(lent: &Lent, sheet: &[u8], line: &mut [u8; 4124], s: State, index: u32) -> Name
    requires { Countable s }
    ensures { name_at line.new result ≡ function_line (calls_over lent.now.types.now lent.now.ids.now (near_in lent.now)) sheet.now s index }
{
    let name = given_name(sheet, s.at + 5);
    let a = function_over(
        lent,
        &mut line[27..4123],
        s.flags,
        s.size,
        name,
        TypeIndex(index),
    );
    answer_line(line, (s.lines + 1) as u64, a)
}

// The line of a command; of a command with no line, nothing. A text call writes to its place in the line.
#[tactic(auto, unfolding(crate::specs::Sheet::line_of, rules::specs::Record::name_at))]
fn line_of(lent: &Lent, sheet: &[u8], line: &mut [u8; 4124], s: State, c: Command) -> Name
    requires { Countable s }
    ensures { name_at line.new result ≡ line_of (calls_over lent.now.types.now lent.now.ids.now (near_in lent.now)) sheet.now s c }
{
    let number = (s.lines + 1) as u64;
    match c {
        Command::TypeText(i) => {
            let text = &mut line[27..4123];
            let a = type_over(lent, text, s.flags, s.size, TypeIndex(i));
            answer_line(line, number, a)
        }
        Command::IdText(i) => {
            let text = &mut line[27..4123];
            let a = id_over(lent, text, s.flags, s.size, IdIndex(i));
            answer_line(line, number, a)
        }
        Command::FunctionText(i) => function_line(lent, sheet, line, s, i),
        Command::TypeSize(i) => {
            let a = size_over(lent, s.size, TypeIndex(i));
            size_line(line, number, a)
        }
        Command::Faulty(b) => refused_line(line, number, Refusal::UnknownCommand(u32::from(b))),
        Command::End | Command::Flags(_) | Command::PointerSize(_) => no_line(),
    }
}

// A line on the page, unless it does not fit: how many bytes are printed after it.
#[tactic(auto, unfolding(crate::specs::Printed::put_of))]
fn put_bytes(out: &mut [u8], at: usize, bs: &[u8]) -> Option<usize>
    requires { at ≤ length out.old }
    ensures { placed out.new result ≡ put_of out.old at false bs.now }
{
    let n = bs.len();
    if n > out.len() - at {
        return None;
    }
    let end = at + n;
    copy(&mut out[at..end], bs);
    Some(end)
}

// The line of a command, unless it was printed before or does not fit. In place at both calls, so that a line that is left out costs little.
#[inline(always)]
fn put_line(
    lent: &Lent,
    sheet: &[u8],
    line: &mut [u8; 4124],
    out: &mut [u8],
    at: usize,
    s: State,
    c: Command,
    skip: usize,
) -> Option<usize>
    requires { (at ≤ length out.old) × Countable s }
    ensures { placed out.new result ≡ put_of out.old at (ltb s.lines skip) (line_of (calls_over lent.now.types.now lent.now.ids.now (near_in lent.now)) sheet.now s c) }
{
    if s.lines < skip {
        return Some(at);
    }
    let n = line_of(lent, sheet, line, s, c);
    put_bytes(out, at, name_of(line, n))
}

fn first_state() -> State
    ensures { result ≡ begin }
{
    State {
        at: 0,
        lines: 0,
        flags: 0,
        size: 8,
    }
}

// The lines of a sheet on the page from its start. The buffer of a line is lent to every line.
fn put_lines(
    lent: &Lent,
    sheet: &[u8],
    line: &mut [u8; 4124],
    out: &mut [u8],
    skip: usize,
) -> Printed
    ensures { shown out.new result ≡ laid_out out.old (fit_over lent.now.types.now lent.now.ids.now (near_in lent.now) sheet.now skip (length out.old)) }
{
    let mut at: usize = 0;
    let mut s = first_state();
    loop {
        let c = command_at(sheet, s.at);
        match step_of(c) {
            Step::Over => return done(at, s.lines, skip, false),
            Step::Setting => s = after(s, c),
            Step::Last(_) => {
                let Some(end) = put_line(lent, sheet, line, out, at, s, c, skip) else {
                    return done(at, s.lines, skip, true);
                };
                return done(end, s.lines + 1, skip, false);
            }
            Step::Line => {
                let Some(end) = put_line(lent, sheet, line, out, at, s, c, skip) else {
                    return done(at, s.lines, skip, true);
                };
                at = end;
                s = after(s, c);
            }
        }
    }
}

// Prints a sheet's lines over what was kept of a check of both streams: as `print_sheet` does, where it was kept of these.
pub fn print_over(lent: &Lent, sheet: &[u8], out: &mut [u8], skip: usize) -> Printed
    ensures result_after { shown out.new result ≡ laid_out out.old (fit_over lent.now.types.now lent.now.ids.now (near_in lent.now) sheet.now skip (length out.old)) }
    ensures continues_over { ContinuesOver lent.now.types.now lent.now.ids.now (near_in lent.now) sheet.now skip (length out.old) }
{
    let mut line = [0u8; 4124];
    put_lines(lent, sheet, &mut line, out, skip)
}

// Prints a sheet's lines, without the first `skip` of them, as far as whole lines fit into the buffer. Each stream is checked once. A caller with more lines
// to come prints the bytes and asks again, with as many more to skip as lines were printed.
pub fn print_sheet(types: &[u8], ids: &[u8], sheet: &[u8], out: &mut [u8], skip: usize) -> Printed
    ensures result_after { shown out.new result ≡ laid_out out.old (sheet_fit types.now ids.now sheet.now skip (length out.old)) }
    ensures sheet_continues { SheetContinues types.now ids.now sheet.now skip (length out.old) }
{
    let mut kept = [0u32; 4115];
    let mut places = [0u32; 4096];
    keep_both(types, ids, &mut kept, &mut places);
    let lent = Lent {
        types,
        ids,
        bounds: &kept,
        places: &places,
    };
    print_over(&lent, sheet, out, skip)
}
