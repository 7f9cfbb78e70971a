// The check of a short stream in four chains of records from guessed starts. Each notes the places of its first 64 records.
ghost use Rattle.std.specs.Prelude.{◌≡◌, ◌+◌, ◌≤◌, ◌<◌, length, get_or, IfSome};
ghost use Rattle.streams.specs.Chains.{Apart, Alike, goals_of, ChainedFor, Finished};
ghost use Rattle.streams.specs.Short.{Traced, Before, NotedIn, Abreast};

use crate::chains::{Four, four_before, goals_of};
use crate::places::{Spacing, quartered};
use crate::stream::two;

// The place behind the record at a place, where that is before a goal.
#[tactic(auto, unfolding(crate::specs::Stream::behind, wire::specs::Field::field))]
pub fn before(s: &[u8], at: usize, goal: usize) -> Option<usize>
    requires { (at < goal) × (goal < length s.now) }
    ensures { Before s.now at goal result }
{
    let size = two(s, at);
    let next = at + 2 + (size as usize);
    if size < 2 || goal <= next {
        return None;
    }
    Some(next)
}

// Four chains in lockstep, until one is at its goal: so many records of each are passed.
fn abreast(
    s: &[u8],
    starts: Four,
    a: &mut [u32],
    b: &mut [u32],
    c: &mut [u32],
    d: &mut [u32],
) -> usize
    requires { (length s.now < 0x1000_0000) × (0 < length s.now) × Apart s.now starts (goals_of s.now starts) × (length a.old ≡ 64) × Alike a.old b.old c.old d.old }
    ensures { Abreast s.now starts a.old b.old c.old d.old a.new b.new c.new d.new result }
{
    let goals = goals_of(s, starts);
    let mut at = starts;
    for k in 0..64 {
        a[k] = at.a as u32;
        b[k] = at.b as u32;
        c[k] = at.c as u32;
        d[k] = at.d as u32;
        let Some(next) = four_before(s, at, goals) else {
            return k;
        };
        at = next;
    }
    63
}

// A place is noted in an entry of a part, where there is one.
#[tactic(auto, using(crate::proofs::Traced::noted_in, crate::proofs::Traced::noted_out))]
fn note_in(part: &mut [u32], k: usize, at: usize)
    requires { at < 0x1_0000_0000 }
    ensures { NotedIn k at part.old part.new }
{
    if k < part.len() {
        part[k] = at as u32;
    }
}

// The rest of a chain that started at `from` and has noted so many records; it is apart too where it has more than it has entries. What is past the end is
// no goal.
fn rest(s: &[u8], from: usize, goal: usize, noted: usize, part: &mut [u32]) -> Option<u32>
    requires traced { Traced s.now from part.old (get_or part.old noted 0) noted (noted + 1) }
    requires bounds { (length s.now < 0x1000_0000) × (0 < length s.now) × (noted < length part.old) × (length part.old ≤ 64) × (goal ≤ length s.now) }
    ensures { Finished s.now from goal 1 part.old part.new result }
{
    let until = goal.min(s.len() - 1);
    let mut k = noted;
    let mut at = part[noted] as usize;
    while at < until {
        let size = two(s, at);
        if size < 2 {
            return None;
        }
        at += 2 + (size as usize);
        k += 1;
        note_in(part, k, at);
    }
    if at == goal && k <= part.len() {
        return Some(k as u32);
    }
    None
}

// Four chains to their goals: where each ends where the next starts and the numbers add up, the records tile.
fn four_short(s: &[u8], count: u32, starts: Four, places: &mut [u32]) -> Option<Spacing>
    requires { (length s.now < 0x1000_0000) × (starts.a ≡ 56) × (0 < length s.now) × Apart s.now starts (goals_of s.now starts) × (256 ≤ length places.old) }
    ensures { ChainedFor s.now count places.old places.new result }
{
    let (a, more) = places.split_at_mut(64);
    let (b, more) = more.split_at_mut(64);
    let (c, more) = more.split_at_mut(64);
    let (d, _) = more.split_at_mut(64);
    let k = abreast(s, starts, a, b, c, d);
    let e = rest(s, starts.a, starts.b, k, a)?;
    let f = rest(s, starts.b, starts.c, k, b)?;
    let g = rest(s, starts.c, starts.d, k, c)?;
    let h = rest(s, starts.d, s.len(), k, d)?;
    let l = quartered(1, 64, e, f, g);
    if l.fourth + h == count {
        return Some(l);
    }
    None
}

// Whether the kind of a record may stand at a place.
pub fn likely(s: &[u8], at: usize) -> bool
    requires { at + 2 ≤ length s.now }
{
    (0x1001..0x1608).contains(&two(s, at))
}

// Whether two likely heads follow each other from a place on.
fn two_heads(s: &[u8], at: usize) -> bool
    requires { at + 4 ≤ length s.now }
{
    if !likely(s, at + 2) {
        return false;
    }
    let next = at + 2 + (two(s, at) as usize);
    next <= s.len() - 4 && likely(s, next + 2)
}

// A place where two likely heads follow each other, not far behind another. Records mostly start at a multiple of four.
pub fn near_heads(s: &[u8], from: usize, reach: usize) -> Option<usize>
    requires { (length s.now < 0x1000_0000) × (4 ≤ length s.now) × (from < 0x1000_0000) × (reach < 0x1000_0000) }
    ensures { IfSome result (λ at. at ≤ length s.now) }
{
    for at in (from..(from + reach).min(s.len() - 4)).step_by(4) {
        if two_heads(s, at) {
            return Some(at);
        }
    }
    None
}

// The same near one place, or else behind another: a long record may lie at the first.
fn near_either(s: &[u8], from: usize, other: usize) -> Option<usize>
    requires { (length s.now < 0x1000_0000) × (4 ≤ length s.now) × (from < 0x1000_0000) × (other < 0x1000_0000) }
{
    match near_heads(s, from, 128) {
        Some(at) => Some(at),
        None => near_heads(s, other, 512),
    }
}

// Four chains from the start and three guesses.
pub fn short_chains(s: &[u8], count: u32, places: &mut [u32]) -> Option<Spacing>
    requires { length s.now < 0x1000_0000 }
    ensures { ChainedFor s.now count places.old places.new result }
{
    if places.len() < 256 || s.len() < 72 {
        return None;
    }
    let part = (s.len() - 56) / 16 * 4;
    let half = part / 8 * 4;
    let starts = Four {
        a: 56,
        b: near_either(s, 56 + part, 56 + half)?,
        c: near_either(s, 56 + 2 * part, 56 + part + half)?,
        d: near_either(s, 56 + 3 * part, 56 + 2 * part + half)?,
    };
    if starts.b <= 56 || starts.c <= starts.b || starts.d <= starts.c || s.len() - 1 <= starts.d {
        return None;
    }
    four_short(s, count, starts, places)
}
