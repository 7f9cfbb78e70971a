// Places: where some records of a stream stand. A check notes them, and a look-up starts at the nearest one at or before its record.
ghost use Rattle.std.specs.Prelude.{◌≡◌, ◌+◌, ◌≤◌, ◌<◌, ◌/◌, min, length};
ghost use Rattle.streams.specs.Stream.{headless, look_from, stands};
ghost use Rattle.streams.specs.Places.{entry_in, mark_in, mark_by, nearest, serves, serves_until, strided, quartered, Parted, Noted, NotedFor};
ghost use Rattle.streams.specs.declared.stream.Absent.TheVariants as absent;

use crate::refusal::{Refusal, StreamKind};
use crate::stream::{
    Absent, Cursor, RecordAt, Stream, behind_records, header_of, no_stream, number_from,
    record_from, records_of,
};

// How places are laid out: in four parts of `room` entries, each with the place of every `stride`-th record of its own, and the numbers of the records
// that the second, third and fourth part start with. One part alone has the others start at 0xffffffff.
#[derive(Clone, Copy, PartialEq, Eq, Debug)]
pub struct Spacing {
    pub stride: u32,
    pub room: u32,
    pub second: u32,
    pub third: u32,
    pub fourth: u32,
}

// A record that is known: its number, counted from 0, and its place.
#[derive(Clone, Copy, PartialEq, Eq, Debug)]
pub struct Mark {
    pub number: u32,
    pub place: usize,
}

// A part of the places: where its entries start, the number of its first record, and up to which number its entries serve.
#[derive(Clone, Copy, PartialEq, Eq, Debug)]
pub struct Part {
    pub from: usize,
    pub base: u32,
    pub next: usize,
}

// The answer of a check, and how the places are laid out that it noted.
#[derive(Clone, Copy, PartialEq, Eq, Debug)]
pub struct NotedCheck {
    pub check: Result<Stream, Refusal>,
    pub spacing: Spacing,
}

pub fn wide(x: u32) -> usize
    ensures { result ≡ x }
{
    x as usize
}

pub fn least(a: u32, b: u32) -> u32
    ensures { result ≡ min a b }
{
    a.min(b)
}

// How often `stride` goes into `n`; 0 where it is 0. The commonest strides spare the division.
fn strides(n: u32, stride: u32) -> u32
    ensures { result ≡ n / stride }
{
    match stride {
        8 => n / 8,
        1 => n,
        0 => 0,
        _ => n / stride,
    }
}

// The entry of a part that is nearest to a record.
fn entry_in(l: Spacing, base: u32, n: u32) -> u32
    requires { base ≤ n }
    ensures { result ≡ entry_in l base n }
{
    strides(n - base, l.stride).min(l.room.saturating_sub(1))
}

// The part that a record stands in.
#[tactic(auto, unfolding(crate::specs::Places::mark_by, crate::specs::Places::serves))]
fn part_by(l: Spacing, n: u32) -> Part
    ensures { Parted l n result }
{
    let room = l.room as usize;
    if n < l.second {
        return Part {
            from: 0,
            base: 0,
            next: l.second as usize,
        };
    }
    if n < l.third {
        return Part {
            from: room,
            base: l.second,
            next: l.third as usize,
        };
    }
    if n < l.fourth {
        return Part {
            from: 2 * room,
            base: l.third,
            next: l.fourth as usize,
        };
    }
    Part {
        from: 3 * room,
        base: l.fourth,
        next: 0x1_0000_0000,
    }
}

// The mark from which a record is sought.
#[tactic(auto, using(crate::proofs::Marks::entry_low), unfolding(crate::specs::Places::mark_in))]
pub fn mark_by(places: &[u32], l: Spacing, n: u32) -> Mark
    ensures { result ≡ mark_by l places.now n }
{
    let p = part_by(l, n);
    let k = entry_in(l, p.base, n);
    match places.get(p.from + (k as usize)) {
        Some(place) => Mark {
            number: p.base + k * l.stride,
            place: *place as usize,
        },
        None => Mark {
            number: 0,
            place: 56,
        },
    }
}

// Where the walk to an index starts.
#[tactic(auto, using(crate::proofs::Marks::marked), unfolding(crate::specs::Places::nearest))]
pub fn start_of(places: &[u32], l: Spacing, stream: Stream, index: u32) -> Cursor
    ensures { result ≡ nearest l places.now stream index }
{
    let m = mark_by(places, l, index.saturating_sub(stream.first));
    Cursor {
        index: stream.first + m.number,
        at: m.place,
    }
}

// Up to which number the mark of a record serves.
#[tactic(auto, using(crate::proofs::Marks::entry_next), unfolding(crate::specs::Places::serves_in))]
fn serves(l: Spacing, n: u32) -> usize
    ensures { (result ≡ serves l n) × (result ≤ 0x1_0000_0000) }
{
    let p = part_by(l, n);
    let k = entry_in(l, p.base, n) as usize + 1;
    if k < l.room as usize {
        return (p.base as usize + k * (l.stride as usize)).min(p.next);
    }
    p.next
}

// Up to which index the walks start where the walk to an index does.
#[tactic(auto, unfolding(crate::specs::Places::serves_until))]
pub fn serves_until(l: Spacing, stream: Stream, index: u32) -> usize
    ensures { result ≡ serves_until l stream index }
{
    stream.first as usize + serves(l, index.saturating_sub(stream.first))
}

// The record of an index of a checked stream.
#[tactic(auto, using(crate::proofs::Marks::marked, crate::proofs::Records::look_err, crate::proofs::Records::look_ok))]
pub fn look_up(
    s: &[u8],
    places: &[u32],
    l: Spacing,
    stream: Stream,
    index: u32,
) -> Result<RecordAt, Absent>
    ensures { result ≡ look_from s.now stream (nearest l places.now stream index) index stands (Err absent.Missing) (Err absent.CrossModule) }
{
    let n = number_from(stream.first, stream.end, index)?;
    let m = mark_by(places, l, n);
    record_from(records_of(s, stream), m.place, n - m.number)
}

// The place behind `count` records from a place on; the places of every `stride`-th of them are noted, as many as there is room for.
#[tactic(auto, using(crate::proofs::Noting::noting_full))]
pub fn behind_noting(
    s: &[u8],
    from: usize,
    count: u32,
    stride: u32,
    places: &mut [u32],
) -> Option<usize>
    requires { (length s.now < 0x1_0000_0000) × (from < 0x1_0000_0000) × (0 < stride) }
    ensures { Noted s.now from count stride places.old places.new result }
{
    let mut at = from;
    let mut left = count;
    for place in places {
        if left == 0 {
            return Some(at);
        }
        *place = at as u32;
        let part = left.min(stride);
        at = behind_records(s, at, part)?;
        left -= part;
    }
    behind_records(s, at, left)
}

// A power of two, so that `room` places serve for `count` records.
pub fn stride_for(count: u32, room: usize) -> u32
    ensures { 0 < result }
{
    for k in 0..30u32 {
        if ((count >> k) as usize) < room {
            return 1 << k;
        }
    }
    1 << 30
}

fn stride_or(stride: u32, count: u32, room: usize) -> u32
    ensures { 0 < result }
{
    if stride == 0 {
        return stride_for(count, room);
    }
    stride
}

// A length as a number of 32 bits, or the greatest.
pub fn entries(n: usize) -> u32
    ensures { result ≡ min n 0xffff_ffff }
{
    n.min(0xffff_ffff) as u32
}

// One part alone.
pub fn strided_by(stride: u32, room: u32) -> Spacing
    ensures { result ≡ strided stride room }
{
    Spacing {
        stride,
        room,
        second: 0xffff_ffff,
        third: 0xffff_ffff,
        fourth: 0xffff_ffff,
    }
}

// Four parts of chains that have so many records.
pub fn quartered(stride: u32, room: u32, a: u32, b: u32, c: u32) -> Spacing
    requires { a + b + c < 0x1_0000_0000 }
    ensures { result ≡ quartered stride room a b c }
{
    Spacing {
        stride,
        room,
        second: a,
        third: a + b,
        fourth: a + b + c,
    }
}

// The check of a stream with a broken header: an id stream of no bytes has no ids.
#[tactic(auto, unfolding(crate::specs::Stream::headless, crate::specs::Stream::no_ids))]
fn without_header(s: &[u8], which: StreamKind) -> Result<Stream, Refusal>
    ensures { result ≡ headless which s.now }
{
    match which {
        StreamKind::Ids if s.is_empty() => Ok(no_stream()),
        _ => Err(Refusal::Header(which)),
    }
}

// The check of a stream in one pass, which notes every `stride`-th place; a stride of 0 is one that suits the places.
#[tactic(auto, using(crate::proofs::Walk::headed_fits))]
pub fn check_with_stride(s: &[u8], which: StreamKind, stride: u32, places: &mut [u32]) -> NotedCheck
    ensures { NotedFor which s.now places.old places.new result }
{
    let room = entries(places.len());
    let Some(stream) = header_of(s) else {
        return NotedCheck {
            check: without_header(s, which),
            spacing: strided_by(1, room),
        };
    };
    let count = stream.end - stream.first;
    let step = stride_or(stride, count, places.len());
    let check = match behind_noting(records_of(s, stream), 56, count, step, places) {
        Some(at) if at == stream.stop => Ok(stream),
        _ => Err(Refusal::Tiling(which)),
    };
    NotedCheck {
        check,
        spacing: strided_by(step, room),
    }
}
