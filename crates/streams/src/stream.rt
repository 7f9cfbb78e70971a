// A stream: the check of its header and of its records, and the way from an index to its record. Nothing else walks a stream.
ghost use Rattle.std.specs.Prelude.{◌≡◌, ◌+◌, ◌≤◌, ◌<◌, length, take};
ghost use Rattle.wire.specs.Field.{number};
ghost use Rattle.streams.specs.Stream.{none, headed, header, behind, passed, stands, record_at, record_behind, number_from, walk_from};
ghost use Rattle.streams.specs.declared.stream.Absent.TheVariants as absent;

use wire::field::field_at;

// What the check found in a header: the indexes from `first` up to `end`, and the place where the records stop.
#[derive(Clone, Copy, PartialEq, Eq, Debug)]
pub struct Stream {
    pub first: u32,
    pub end: u32,
    pub stop: usize,
}

// A record: its kind, the place where its fields start, and the place behind it.
#[derive(Clone, Copy, PartialEq, Eq, Debug)]
pub struct RecordAt {
    pub kind: u16,
    pub start: usize,
    pub end: usize,
}

// Why no record stands for an index: there is none, or it is an index of another module.
#[derive(Clone, Copy, PartialEq, Eq, Debug)]
pub enum Absent {
    Missing,
    CrossModule,
}

// An index, and the place where its record stands.
#[derive(Clone, Copy, PartialEq, Eq, Debug)]
pub struct Cursor {
    pub index: u32,
    pub at: usize,
}

// No stream: for ids that are not there, and for what was refused.
pub fn no_stream() -> Stream
    ensures { result ≡ none }
{
    Stream {
        first: 0,
        end: 0,
        stop: 0,
    }
}

// The header of a stream, where it has one.
#[tactic(auto, unfolding(crate::specs::Stream::header, crate::specs::Stream::indexes, wire::specs::Field::field))]
pub fn header_of(s: &[u8]) -> Option<Stream>
    ensures { result ≡ header s.now headed None }
{
    if 16_777_216 < s.len() || s.len() < 56 || field_at::<u32>(s, 4)? != 56 {
        return None;
    }
    let first = field_at::<u32>(s, 8)?;
    let end = field_at::<u32>(s, 12)?;
    let bytes = field_at::<u32>(s, 16)? as usize;
    if first < 0x1000 || end < first || 0x8000_0000 < end || s.len() - 56 < bytes {
        return None;
    }
    Some(Stream {
        first,
        end,
        stop: 56 + bytes,
    })
}

// The number that two bytes inside a stream make.
#[tactic(auto, unfolding(wire::specs::Field::number))]
pub fn two(s: &[u8], at: usize) -> u16
    requires { at + 2 ≤ length s.now }
    ensures { result ≡ number 2 s.now at }
{
    u16::from_le_bytes([s[at], s[at + 1]])
}

// The place behind the record at a place. A record has at least four bytes.
#[tactic(auto, unfolding(crate::specs::Stream::behind, wire::specs::Field::field))]
pub fn behind_record(s: &[u8], at: usize) -> Option<usize>
    ensures { result ≡ behind s.now at Some None }
{
    if s.len() < 4 || s.len() - 4 < at {
        return None;
    }
    let len = two(s, at);
    if len < 2 {
        return None;
    }
    let next = at + 2 + (len as usize);
    if s.len() < next {
        return None;
    }
    Some(next)
}

// The place behind `count` records from a place on.
#[tactic(auto, using(crate::proofs::Walk::passed_next, crate::proofs::Walk::passed_stop, crate::proofs::Walk::passed_none))]
pub fn behind_records(s: &[u8], from: usize, count: u32) -> Option<usize>
    ensures { result ≡ passed count s.now from Some None }
{
    let mut at = from;
    for _ in 0..count {
        at = behind_record(s, at)?;
    }
    Some(at)
}

// The record at a place.
#[tactic(auto, using(crate::proofs::Records::record_found, crate::proofs::Records::record_missed, crate::proofs::Walk::within))]
pub fn record_at(s: &[u8], at: usize) -> Result<RecordAt, Absent>
    ensures { result ≡ record_at s.now at stands (Err absent.Missing) }
{
    let end = behind_record(s, at).ok_or(Absent::Missing)?;
    Ok(RecordAt {
        kind: two(s, at + 2),
        start: at + 4,
        end,
    })
}

// The record behind `count` others from the start. What is past the end of the stream is missed when the next record is read.
#[tactic(auto, using(crate::proofs::Records::behind_out, crate::proofs::Records::behind_few, crate::proofs::Records::behind_none))]
fn record_behind(s: &[u8], count: u32) -> Result<RecordAt, Absent>
    ensures { result ≡ record_behind count s.now 0 }
{
    if s.len() < 4 {
        return Err(Absent::Missing);
    }
    let last = s.len() - 4;
    let mut at = 0;
    for _ in 0..count {
        if last < at {
            return Err(Absent::Missing);
        }
        let len = two(s, at);
        if len < 2 {
            return Err(Absent::Missing);
        }
        at += 2 + (len as usize);
    }
    record_at(s, at)
}

// The record behind `count` others from a place on. The search is handed the stream only from there on.
#[tactic(auto, using(crate::proofs::Records::behind_out, crate::proofs::Handed::found_ok, crate::proofs::Handed::found_err, crate::proofs::Handed::found_fits))]
pub fn record_from(s: &[u8], from: usize, count: u32) -> Result<RecordAt, Absent>
    ensures { result ≡ record_behind count s.now from }
{
    if s.len() < from {
        return Err(Absent::Missing);
    }
    let r = record_behind(&s[from..], count)?;
    Ok(RecordAt {
        kind: r.kind,
        start: from + r.start,
        end: from + r.end,
    })
}

// The place behind `count` records from a place on. They are passed in the stream only from there on.
#[tactic(auto, using(crate::proofs::Handed::place_some, crate::proofs::Handed::place_none, crate::proofs::Handed::place_fits))]
fn behind_from(s: &[u8], from: usize, count: u32) -> Option<usize>
    ensures { result ≡ passed count s.now from Some None }
{
    if s.len() < from {
        return behind_records(s, from, count);
    }
    let at = behind_records(&s[from..], 0, count)?;
    Some(from + at)
}

// The part of a stream where its records are: what is there of it.
#[tactic(auto, using(crate::proofs::Walk::taken))]
pub fn records_of<'a>(s: &'a [u8], stream: Stream) -> &'a [u8]
    ensures { result.now ≡ take stream.stop s.now }
{
    &s[..stream.stop.min(s.len())]
}

// The number of an index from another on, where it is before the end.
#[tactic(auto, unfolding(crate::specs::Stream::number_from))]
pub fn number_from(first: u32, end: u32, index: u32) -> Result<u32, Absent>
    ensures { result ≡ number_from first end index }
{
    if 0x8000_0000 <= index {
        return Err(Absent::CrossModule);
    }
    if index < first || end <= index {
        return Err(Absent::Missing);
    }
    Ok(index - first)
}

// The walk from a record to that of an index.
#[tactic(auto, using(crate::proofs::Walk::passed_to, crate::proofs::Walk::passed_past), unfolding(crate::specs::Stream::walk_from, crate::specs::Stream::number_from))]
pub fn walk_from(s: &[u8], stream: Stream, from: Cursor, index: u32) -> Result<Cursor, Absent>
    ensures { result ≡ walk_from s.now stream from index Ok (Err absent.Missing) (Err absent.CrossModule) }
{
    let n = number_from(from.index, stream.end, index)?;
    let at = behind_from(records_of(s, stream), from.at, n).ok_or(Absent::Missing)?;
    Ok(Cursor { index, at })
}

// Where the record of the next index stands.
#[tactic(auto, unfolding(crate::specs::Stream::walk_from))]
pub fn next_cursor(s: &[u8], stream: Stream, c: Cursor) -> Result<Cursor, Absent>
    ensures { result ≡ walk_from s.now stream c (c.index + 1) Ok (Err absent.Missing) (Err absent.CrossModule) }
{
    if 0x8000_0000 <= c.index {
        return Err(Absent::CrossModule);
    }
    walk_from(s, stream, c, c.index + 1)
}
