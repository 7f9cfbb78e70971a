// The lines that a sheet prints: running number, refusal or 0, detail in hexadecimal, then a text or a size if there is one. A buffer of 4,124 bytes takes one
// line: a text or a size stands behind place 27, the fields before it end there, and so the line starts where its running number does.
ghost use Rattle.std.specs.Prelude.{◌≡◌, ◌++◌, ◌≤◌, length, drop, take};
ghost use Rattle.wire.specs.Text.{bytes};
ghost use Rattle.rules.specs.Record.{name_at};
ghost use Rattle.rules.specs.Text;
ghost use Rattle.pen.specs.Page.{page, Wrote, writing};
ghost use Rattle.checked_calls.specs.Answers.{of_answer};
ghost use Rattle.checked_calls.specs.Checks.{of_size_answer};
ghost use Rattle.sheet.specs.Line.{head, refused_line, text_line, size_line};
ghost use Rattle.sheet.specs.Sheet.{answer_line};

use checked_calls::answer::start;
use leaf_writers::numbers::{decimal, decimal_in, hex};
use pen::Pen;
use streams::refusal::Refusal;
use wire::bytes::copy;
use wire::name::Name;

// The fields before a text.
fn emit_head(out: &mut [u8], p: Pen, number: u64, refusal: u32, detail: u32) -> Pen
    ensures { Wrote (page out.old p) (writing (head number refusal detail)) (page out.new result) }
{
    let a = decimal(out, p, number);
    let b = pen::text(out, a, b" ");
    let c = decimal(out, b, u64::from(refusal));
    let d = pen::text(out, c, b" 0x");
    hex(out, d, detail)
}

fn emit_refused(out: &mut [u8], p: Pen, number: u64, f: Refusal) -> Pen
    ensures { Wrote (page out.old p) (writing (refused_line number f)) (page out.new result) }
{
    let nr = f.number();
    let detail = f.detail();
    let a = emit_head(out, p, number, nr, detail);
    pen::text(out, a, b"\n")
}

// The line of a refused call, at the start of the buffer.
pub fn refused_line(line: &mut [u8], number: u64, f: Refusal) -> Name
    requires { 53 ≤ length line.old }
    ensures { name_at line.new result ≡ refused_line number f }
{
    let p = start(line.len());
    let q = emit_refused(line, p, number, f);
    Name {
        start: 0,
        len: q.at,
    }
}

// The fields before a text or a size: where the running number starts.
fn head_before(line: &mut [u8; 4124], number: u64) -> usize
    ensures { (result ≤ 20) × (drop result line.new ≡ (Text.decimal number ++ bytes " 0 0x0 ") ++ drop 27 line.old) }
{
    let at = decimal_in(&mut line[0..20], number);
    copy(&mut line[20..27], b" 0 0x0 ");
    at
}

// The line of so many bytes behind place 27.
fn text_line(line: &mut [u8; 4124], number: u64, n: usize) -> Name
    requires { n ≤ 4096 }
    ensures { name_at line.new result ≡ text_line number (take n (drop 27 line.old)) }
{
    let at = head_before(line, number);
    let end = 27 + n;
    line[end] = 10;
    Name {
        start: at,
        len: (end + 1) - at,
    }
}

// The line of a text call, which wrote its text behind place 27.
pub fn answer_line(line: &mut [u8; 4124], number: u64, a: Result<usize, Refusal>) -> Name
    requires { (of_answer a).value ≤ 4096 }
    ensures { name_at line.new result ≡ answer_line number (drop 27 line.old) (of_answer a) }
{
    match a {
        Ok(n) => text_line(line, number, n),
        Err(f) => refused_line(line, number, f),
    }
}

// The line of a size call.
pub fn size_line(line: &mut [u8; 4124], number: u64, a: Result<u64, Refusal>) -> Name
    ensures { name_at line.new result ≡ size_line number (of_size_answer a) }
{
    match a {
        Ok(n) => {
            let q = decimal(&mut line[27..4123], start(4096), n);
            text_line(line, number, q.at)
        }
        Err(f) => refused_line(line, number, f),
    }
}
