// The check of a stream in four chains of records from guessed starts. A guess that is wrong costs time and changes no answer.
ghost use Rattle.std.specs.Prelude.{◌≡◌, true, ◌≤◌, ◌<◌, ◌+◌, ◌*◌, length, OnSome, IfSome};
ghost use Rattle.streams.specs.Chains.{Apart, Inside, Alike, goals_of, Linked, Dued, FourBefore, Stretched, Stepped, Finished, ChainedFor};
ghost use Rattle.streams.specs.Places.{NotedFor};

use crate::places::{NotedCheck, Spacing, check_with_stride, entries, quartered, stride_for};
use crate::refusal::StreamKind;
use crate::short::{before, likely, near_heads, short_chains};
use crate::stream::{behind_record, header_of, records_of, two};

// Four places.
#[derive(Clone, Copy, PartialEq, Eq, Debug)]
pub struct Four {
    pub a: usize,
    pub b: usize,
    pub c: usize,
    pub d: usize,
}

// Where four places lead, each so many records on.
#[derive(Clone, Copy, PartialEq, Eq, Debug)]
pub struct Lead {
    pub at: Four,
    pub n: u32,
}

// How far a chain is: the records that it passed, the entries that it noted, and after how many records the next is due.
#[derive(Clone, Copy, PartialEq, Eq, Debug)]
pub struct Pace {
    pub n: u32,
    pub k: usize,
    pub wait: u32,
}

// Where four chains are, all at one pace.
#[derive(Clone, Copy, PartialEq, Eq, Debug)]
pub struct Steps {
    pub at: Four,
    pub pace: Pace,
}

// A place is noted in the next entry of a part, where that is due and there is one.
fn note(part: &mut [u32], stride: u32, at: usize, pace: Pace) -> Pace
    requires { at < 0x1_0000_0000 }
    ensures { Dued stride at pace part.old part.new result }
{
    if 0 < pace.wait {
        return pace;
    }
    if part.len() <= pace.k {
        return Pace {
            n: pace.n,
            k: pace.k,
            wait: stride,
        };
    }
    part[pace.k] = at as u32;
    Pace {
        n: pace.n,
        k: pace.k + 1,
        wait: stride,
    }
}

// The rest of a chain that started at `from`. It is apart too where it has more records than its entries serve for: behind the last of them a look-up
// would walk far.
fn finish(
    s: &[u8],
    from: usize,
    goal: usize,
    start: usize,
    steps: Pace,
    stride: u32,
    part: &mut [u32],
) -> Option<u32>
    requires linked { Linked s.now from stride part.old start steps }
    requires bounds { (length s.now < 0x1_0000_0000) × (from ≤ length s.now) × (0 < stride) × (length part.old < 0x1_0000_0000) }
    ensures { Finished s.now from goal stride part.old part.new result }
{
    let mut at = start;
    let mut pace = steps;
    while at < goal {
        pace = note(part, stride, at, pace);
        at = behind_record(s, at)?;
        pace.n += 1;
        pace.wait -= 1;
    }
    if at == goal && pace.n as usize <= part.len() * (stride as usize) {
        return Some(pace.n);
    }
    None
}

// The places behind four records, each before its goal.
#[tactic(auto, using(crate::proofs::Chained::before_none, crate::proofs::Chained::before_all))]
pub fn four_before(s: &[u8], at: Four, goals: Four) -> Option<Four>
    requires { Apart s.now at goals }
    ensures { FourBefore s.now at goals result }
{
    Some(Four {
        a: before(s, at.a, goals.a)?,
        b: before(s, at.b, goals.b)?,
        c: before(s, at.c, goals.c)?,
        d: before(s, at.d, goals.d)?,
    })
}

// At most so many records from each of four places, in lockstep, until one is at its goal. All are before their goals.
fn in_step(s: &[u8], from: Four, goals: Four, most: u32) -> Lead
    requires { Apart s.now from goals }
    ensures { Stretched s.now from most result }
{
    let mut at = from;
    for n in 0..most {
        let Some(next) = four_before(s, at, goals) else {
            return Lead { at, n };
        };
        at = next;
    }
    Lead { at, n: most }
}

// Whether a place is before its goal, and that inside.
fn lies_before(s: &[u8], at: usize, goal: usize) -> bool
    ensures { result ≡ true → (at < goal) × (goal < length s.now) }
{
    at < goal && goal < s.len()
}

// The same, from anywhere to anywhere: no step where a place is not before its goal.
pub fn stretch(s: &[u8], from: Four, goals: Four, most: u32) -> Lead
    ensures { Stretched s.now from most result }
{
    if lies_before(s, from.a, goals.a)
        && lies_before(s, from.b, goals.b)
        && lies_before(s, from.c, goals.c)
        && lies_before(s, from.d, goals.d)
    {
        return in_step(s, from, goals, most);
    }
    Lead { at: from, n: 0 }
}

// The goals of four chains: where the next starts, or the last byte.
pub fn goals_of(s: &[u8], starts: Four) -> Four
    requires { 0 < length s.now }
    ensures { result ≡ goals_of s.now starts }
{
    Four {
        a: starts.b,
        b: starts.c,
        c: starts.d,
        d: s.len() - 1,
    }
}

// Four chains, in lockstep until one is at its goal; each notes its places in its own part.
fn lockstep(
    s: &[u8],
    starts: Four,
    stride: u32,
    a: &mut [u32],
    b: &mut [u32],
    c: &mut [u32],
    d: &mut [u32],
) -> Steps
    requires { (length s.now < 0x1_0000_0000) × (0 < length s.now) × Inside s.now starts × (0 < stride) × Alike a.old b.old c.old d.old }
    ensures { Stepped s.now starts stride a.old b.old c.old d.old a.new b.new c.new d.new result }
{
    let goals = goals_of(s, starts);
    let mut at = starts;
    let mut pace = Pace {
        n: 0,
        k: 0,
        wait: 0,
    };
    loop {
        note(a, stride, at.a, pace);
        note(b, stride, at.b, pace);
        note(c, stride, at.c, pace);
        let due = note(d, stride, at.d, pace);
        let t = stretch(s, at, goals, due.wait);
        at = t.at;
        pace = Pace {
            n: due.n + t.n,
            k: due.k,
            wait: due.wait - t.n,
        };
        if 0 < pace.wait {
            return Steps { at, pace };
        }
    }
}

// The four chains to their goals: where each ends where the next starts and the numbers add up, the records tile.
fn chained(
    s: &[u8],
    count: u32,
    stride: u32,
    room: u32,
    starts: Four,
    places: &mut [u32],
) -> Option<Spacing>
    requires { (length s.now < 0x1_0000_0000) × (starts.a ≡ 56) × Inside s.now starts × (0 < stride) × (4 * room ≤ length places.old) × (0 < room) }
    ensures { ChainedFor s.now count places.old places.new result }
{
    let (a, rest) = places.split_at_mut(room as usize);
    let (b, rest) = rest.split_at_mut(room as usize);
    let (c, rest) = rest.split_at_mut(room as usize);
    let (d, _) = rest.split_at_mut(room as usize);
    let t = lockstep(s, starts, stride, a, b, c, d);
    let e = finish(s, starts.a, starts.b, t.at.a, t.pace, stride, a)?;
    let f = finish(s, starts.b, starts.c, t.at.b, t.pace, stride, b)?;
    let g = finish(s, starts.c, starts.d, t.at.c, t.pace, stride, c)?;
    let h = finish(s, starts.d, s.len(), t.at.d, t.pace, stride, d)?;
    let l = quartered(stride, room, e, f, g);
    if l.fourth + h == count {
        return Some(l);
    }
    None
}

// The place behind what may be a record, where its head is likely.
fn behind_likely(s: &[u8], at: usize) -> Option<usize>
    requires { (4 ≤ length s.now) × (length s.now < 0x1000_0000) }
    ensures { OnSome result (at + 4 ≤ length s.now) }
{
    if s.len() - 4 < at || !likely(s, at + 2) {
        return None;
    }
    let size = two(s, at);
    if size < 2 {
        return None;
    }
    Some(at + 2 + (size as usize))
}

// The third of three likely heads that follow each other from a place on. What is no head but looks like one mostly leads to a head soon.
fn third_head(s: &[u8], at: usize) -> Option<usize>
    requires { (4 ≤ length s.now) × (length s.now < 0x1000_0000) }
    ensures { IfSome result (λ third. third ≤ length s.now) }
{
    let second = behind_likely(s, at)?;
    let third = behind_likely(s, second)?;
    behind_likely(s, third)?;
    Some(third)
}

// A place behind another where a record may start, sought byte by byte; the end of the stream where none is near.
fn guess(s: &[u8], from: usize) -> usize
    requires { (4 ≤ length s.now) × (length s.now < 0x1000_0000) × (from < 0x1000_0000) }
    ensures { result ≤ length s.now }
{
    for at in from..(from + 65536).min(s.len() - 4) {
        if let Some(third) = third_head(s, at) {
            return third;
        }
    }
    s.len()
}

// The same, first at multiples of four not far behind, where most records start.
fn quick_guess(s: &[u8], from: usize) -> usize
    requires { (4 ≤ length s.now) × (length s.now < 0x1000_0000) × (from < 0x1000_0000) }
    ensures { result ≤ length s.now }
{
    // where none is near, the header is tried
    let at = near_heads(s, from, 64).unwrap_or(0);
    match third_head(s, at) {
        Some(third) if 56 < third => third,
        _ => guess(s, from),
    }
}

// Four chains from the start and three guesses. The stride is the lesser of two: with one, half of the entries serve for the records that there should be;
// with the other, all of them serve for the most records that so many bytes can hold.
fn four_chains(s: &[u8], count: u32, places: &mut [u32]) -> Option<Spacing>
    requires { length s.now < 0x1000_0000 }
    ensures { ChainedFor s.now count places.old places.new result }
{
    let room = entries(places.len()) / 4;
    if room == 0 || s.len() < 56 {
        return None;
    }
    let part = (s.len() - 56) / 16 * 4;
    let starts = Four {
        a: 56,
        b: quick_guess(s, 56 + part),
        c: quick_guess(s, 56 + 2 * part),
        d: quick_guess(s, 56 + 3 * part),
    };
    let most = ((s.len() - 56) / 4) as u32;
    let stride = stride_for(count, 2 * (room as usize)).min(stride_for(most, 4 * (room as usize)));
    chained(s, count, stride, room, starts, places)
}

// The chains that suit so many records.
fn chains_for(s: &[u8], count: u32, places: &mut [u32]) -> Option<Spacing>
    requires { length s.now < 0x1000_0000 }
    ensures { ChainedFor s.now count places.old places.new result }
{
    if count < 192 {
        return short_chains(s, count, places);
    }
    four_chains(s, count, places)
}

// The check of a stream in four chains, where there are some records and the chains meet.
#[tactic(auto, using(crate::proofs::Walk::headed_fits))]
fn check_in_chains(s: &[u8], which: StreamKind, places: &mut [u32]) -> Option<NotedCheck>
    ensures { (length places.new ≡ length places.old) × IfSome result (λ r. NotedFor which s.now places.old places.new r) }
{
    let stream = header_of(s)?;
    let count = stream.end - stream.first;
    if count < 48 {
        return None;
    }
    let spacing = chains_for(records_of(s, stream), count, places)?;
    Some(NotedCheck {
        check: Ok(stream),
        spacing,
    })
}

// The check of a stream, which notes places: in four chains, or else in one.
pub fn check_stream(s: &[u8], which: StreamKind, places: &mut [u32]) -> NotedCheck
    ensures { NotedFor which s.now places.old places.new result }
{
    match check_in_chains(s, which, places) {
        Some(c) => c,
        None => check_with_stride(s, which, 0, places),
    }
}
