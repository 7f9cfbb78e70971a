// The pen: where the next byte goes, what was written last, how many indexes were opened, and whether writing has stopped. A stopped pen writes nothing.
// Where the buffer is shorter than the pen's limit the bytes past its end are counted only.
#![tactic(auto)]

ghost use Rattle.std.specs.Prelude.{◌≡◌, [], ◌-◌, ◌/◌, ◌%◌, set};
ghost use Rattle.wire.specs.Field.{pick};
ghost use Rattle.interpreter.specs.Trace.{tr, refused, halted, long, count};
ghost use Rattle.pen.specs.Page.{read_pen, page, read_page, put, unless_stopped, Wrote, last_since, resumed, refused_pen, missed_pen, unread_pen, writing, idle, unread_trace, Past, opened_pen};

use streams::refusal::Refusal;
use wire::bytes::copy;

// How a pen has stopped.
#[derive(Clone, Copy, PartialEq, Eq)]
pub enum Stop {
    No,
    Missing(u32),
    Refused(Refusal),
}

// What no refusal has as its number: an index is missing, and the text that is being written ends.
pub const MISSING: u32 = 255;

#[derive(Clone, Copy)]
pub struct Pen {
    pub at: usize,
    // The last byte, and above it how many indexes were opened.
    // Kept: one number, for a struct of four words without gaps is copied fast, and a fifth word would be copied at each call of a writer (docs/DECISIONS.md).
    pub tally: u64,
    pub limit: usize,
    // Whether it has stopped: 0, the number of a refusal, or `MISSING`; then the detail.
    // Kept: two numbers, since an enum made each of the many copies of a pen go byte by byte (docs/DECISIONS.md).
    pub stop: u32,
    pub detail: u32,
}

fn store(out: &mut [u8], at: usize, b: u8)
    ensures { out.new ≡ set out.old at b }
{
    if at < out.len() {
        out[at] = b;
    }
}

// How a pen has stopped, by its two numbers.
pub fn stop_of(p: Pen) -> Stop
    ensures { result ≡ (read_pen p).stop }
{
    match p.stop {
        0 => Stop::No,
        MISSING => Stop::Missing(p.detail),
        number => Stop::Refused(Refusal::of(number, p.detail)),
    }
}

// Whether the pen has stopped.
pub fn is_idle(p: Pen) -> bool
    ensures { result ≡ idle (read_pen p).stop }
{
    p.stop != 0
}

// A refused pen keeps nothing but its limit.
fn gone(limit: usize, f: Refusal) -> Pen
    ensures { result ≡ Rattle.pen.specs.Page.gone limit f }
{
    Pen {
        at: 0,
        tally: 0,
        limit,
        stop: f.number(),
        detail: f.detail(),
    }
}

// A tally with another last byte.
fn with_last(tally: u64, b: u8) -> u64
    ensures { (result % 256 ≡ b) × (result / 256 ≡ tally / 256) }
{
    tally / 256 * 256 + u64::from(b)
}

// The pen behind a run of bytes, of which the last is b.
fn past(p: Pen, end: usize, b: u8) -> Pen
    ensures { Past p end b result }
{
    Pen {
        at: end,
        tally: with_last(p.tally, b),
        limit: p.limit,
        stop: 0,
        detail: 0,
    }
}

// One byte more; 15 where there is no room for it.
#[tactic(auto, unfolding(crate::specs::Page::put, streams::specs::Refusal::refusal_of))]
pub fn byte(out: &mut [u8], p: Pen, b: u8) -> Pen
    ensures { read_page (page out.new result) ≡ put (read_page (page out.old p)) b }
{
    if p.stop != 0 {
        return p;
    }
    if p.at < p.limit {
        store(out, p.at, b);
        return past(p, p.at + 1, b);
    }
    gone(p.limit, Refusal::NoRoom)
}

// The bytes of s, one by one.
#[tactic(auto, unfolding(crate::specs::Page::ink))]
fn text_by_byte(out: &mut [u8], p: Pen, s: &[u8]) -> Pen
    ensures { Wrote (page out.old p) (writing s.now) (page out.new result) }
{
    let mut q = p;
    for &b in s {
        q = byte(out, q, b);
    }
    q
}

// How many bytes more a pen may write: none where it has stopped.
fn room(p: Pen) -> usize
    ensures { result ≡ unless_stopped (read_pen p).stop (p.limit - p.at) 0 }
{
    if p.stop != 0 {
        return 0;
    }
    p.limit.saturating_sub(p.at)
}

// The bytes of s, at once where all of them may be written and lie inside the buffer or all of them past its end.
pub fn text(out: &mut [u8], p: Pen, s: &[u8]) -> Pen
    ensures { Wrote (page out.old p) (writing s.now) (page out.new result) }
{
    if let Some(&b) = s.last() {
        if s.len() <= room(p) {
            let end = p.at + s.len();
            if end <= out.len() {
                copy(&mut out[p.at..end], s);
                return past(p, end, b);
            }
            if out.len() <= p.at {
                return past(p, end, b);
            }
        }
    }
    text_by_byte(out, p, s)
}

// A text, or nothing.
pub fn text_if(out: &mut [u8], p: Pen, b: bool, s: &[u8]) -> Pen
    ensures { Wrote (page out.old p) (writing (pick b s.now [])) (page out.new result) }
{
    if b {
        return text(out, p, s);
    }
    p
}

// One index more was opened. The count stops where its number has no room for more.
#[tactic(auto, unfolding(crate::specs::Page::opened_pen, crate::specs::Page::next_tally))]
pub fn opened(p: Pen) -> Pen
    ensures { result ≡ opened_pen p }
{
    Pen {
        tally: p.tally.checked_add(256).unwrap_or(p.tally),
        ..p
    }
}

// How many indexes were opened.
pub fn openings(p: Pen) -> u64
    ensures { result ≡ (read_pen p).opened }
{
    p.tally / 256
}

// A pen that has not stopped is refused.
#[tactic(auto, unfolding(crate::specs::Page::refused_pen))]
pub fn stopped(p: Pen, f: Refusal) -> Pen
    ensures { result ≡ refused_pen p f }
{
    if p.stop != 0 {
        return p;
    }
    gone(p.limit, f)
}

// A refusal of the rules.
pub fn refuse(out: &[u8], p: Pen, f: Refusal) -> Pen
    ensures { Wrote (page out.now p) (tr [] (refused f) [] (count 0 0)) (page out.now result) }
{
    stopped(p, f)
}

// A chain's 33rd record.
pub fn too_long(out: &[u8], p: Pen, index: u32) -> Pen
    ensures { Wrote (page out.now p) (tr [] (halted (long index)) [] (count 0 0)) (page out.now result) }
{
    stopped(p, Refusal::ChainTooLong(index))
}

// An index is missing: the text that is being written ends here.
#[tactic(auto, unfolding(crate::specs::Page::missed_pen))]
fn missed(p: Pen, index: u32) -> Pen
    ensures { result ≡ missed_pen p index }
{
    if p.stop != 0 {
        return p;
    }
    Pen {
        stop: MISSING,
        detail: index,
        ..p
    }
}

// What could not be read inside a type: a missing record ends the text, anything else is refused.
#[tactic(auto, unfolding(crate::specs::Page::unread_pen))]
fn unreadable(p: Pen, f: Refusal) -> Pen
    ensures { result ≡ unread_pen p f }
{
    match f {
        Refusal::Missing(index) => missed(p, index),
        _ => stopped(p, f),
    }
}

// The same, said of the page.
pub fn unread(out: &[u8], p: Pen, f: Refusal) -> Pen
    ensures { Wrote (page out.now p) (unread_trace f) (page out.now result) }
{
    unreadable(p, f)
}

// The last byte written since a place; 0 where there is none.
#[tactic(auto, unfolding(crate::specs::Page::last_since))]
pub fn last_since(p: Pen, start: usize) -> u64
    ensures { result ≡ last_since (read_pen p) start }
{
    if p.at <= start {
        return 0;
    }
    p.tally % 256
}

// A pen that stopped at a missing index goes on.
pub fn resume(p: Pen) -> Pen
    ensures { result ≡ resumed p }
{
    Pen {
        stop: 0,
        detail: 0,
        ..p
    }
}
