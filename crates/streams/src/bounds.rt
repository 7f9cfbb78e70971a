// What the checks of a call's two streams found, as 19 numbers: nine of the types, nine of the ids, and how many places of the ids stand behind them.
ghost use Rattle.std.specs.Prelude.{◌≡◌, ◌++◌, ◌≤◌, length, drop, get_or};
ghost use Rattle.streams.specs.Stream.{look_from, stands};
ghost use Rattle.streams.specs.Places.{nearest};
ghost use Rattle.streams.specs.Bounds.{start_of, stream_in, spacing_in, check_in, places_in, state_of, numbers_of, bounds_of};
ghost use Rattle.streams.specs.declared.stream.Absent.TheVariants as absent;

use crate::places::{NotedCheck, Spacing, entries, look_up};
use crate::refusal::{Refusal, StreamKind};
use crate::stream::{Absent, RecordAt, Stream, no_stream};

// A number of a list; 0 past its end.
pub fn number_at(numbers: &[u32], k: usize) -> u32
    ensures { result ≡ get_or numbers.now k 0 }
{
    numbers.get(k).copied().unwrap_or(0)
}

#[tactic(auto, unfolding(crate::specs::Bounds::start_of))]
fn start_of(which: StreamKind) -> usize
    ensures { (result ≡ start_of which) × (result ≤ 9) }
{
    match which {
        StreamKind::Types => 0,
        StreamKind::Ids => 9,
    }
}

// The bounds of a stream. The numbers are all there but in a buffer that is too short, so one test serves them all.
#[tactic(auto, unfolding(crate::specs::Bounds::stream_in))]
pub fn stream_in(bounds: &[u32], which: StreamKind) -> Stream
    ensures { result ≡ stream_in bounds.now which }
{
    let k = start_of(which);
    if k + 9 <= bounds.len() {
        return Stream {
            first: bounds[k + 1],
            end: bounds[k + 2],
            stop: bounds[k + 3] as usize,
        };
    }
    Stream {
        first: number_at(bounds, k + 1),
        end: number_at(bounds, k + 2),
        stop: number_at(bounds, k + 3) as usize,
    }
}

// How a stream's places are laid out.
#[tactic(auto, unfolding(crate::specs::Bounds::spacing_in))]
pub fn spacing_in(bounds: &[u32], which: StreamKind) -> Spacing
    ensures { result ≡ spacing_in bounds.now which }
{
    let k = start_of(which);
    if k + 9 <= bounds.len() {
        return Spacing {
            stride: bounds[k + 4],
            room: bounds[k + 5],
            second: bounds[k + 6],
            third: bounds[k + 7],
            fourth: bounds[k + 8],
        };
    }
    Spacing {
        stride: number_at(bounds, k + 4),
        room: number_at(bounds, k + 5),
        second: number_at(bounds, k + 6),
        third: number_at(bounds, k + 7),
        fourth: number_at(bounds, k + 8),
    }
}

// The check of a stream.
#[tactic(auto, unfolding(crate::specs::Bounds::check_in))]
pub fn check_in(bounds: &[u32], which: StreamKind) -> Result<Stream, Refusal>
    ensures { result ≡ check_in bounds.now which }
{
    match number_at(bounds, start_of(which)) {
        1 => Ok(stream_in(bounds, which)),
        4 => Err(Refusal::Tiling(which)),
        _ => Err(Refusal::Header(which)),
    }
}

// The places of a stream: those of the ids stand behind the numbers.
#[tactic(auto, using(crate::proofs::Numbers::left), unfolding(crate::specs::Bounds::places_in))]
fn places_in<'a>(bounds: &'a [u32], places: &'a [u32], which: StreamKind) -> &'a [u32]
    ensures { result.now ≡ places_in bounds.now places.now which }
{
    match which {
        StreamKind::Types => places,
        StreamKind::Ids => &bounds[bounds.len().min(19)..],
    }
}

// The record of an index: in the stream, and by the places, that the numbers tell of.
#[inline(always)]
pub fn look_up_in(
    s: &[u8],
    bounds: &[u32],
    places: &[u32],
    which: StreamKind,
    index: u32,
) -> Result<RecordAt, Absent>
    ensures { result ≡ look_from s.now (stream_in bounds.now which) (nearest (spacing_in bounds.now which) (places_in bounds.now places.now which) (stream_in bounds.now which) index) index stands (Err absent.Missing) (Err absent.CrossModule) }
{
    look_up(
        s,
        places_in(bounds, places, which),
        spacing_in(bounds, which),
        stream_in(bounds, which),
        index,
    )
}

#[tactic(auto, unfolding(crate::specs::Bounds::state_of))]
fn state_of(c: Result<Stream, Refusal>) -> u32
    ensures { result ≡ state_of c }
{
    match c {
        Ok(_) => 1,
        Err(f) => f.number(),
    }
}

// What a check found.
#[tactic(auto, unfolding(crate::specs::Bounds::numbers_of, crate::specs::Bounds::stream_of))]
fn numbers_of(c: NotedCheck) -> [u32; 9]
    ensures { result ≡ numbers_of c }
{
    let t = c.check.unwrap_or(no_stream());
    let l = c.spacing;
    [
        state_of(c.check),
        t.first,
        t.end,
        entries(t.stop),
        l.stride,
        l.room,
        l.second,
        l.third,
        l.fourth,
    ]
}

// What both checks found; so many places of the ids follow.
#[tactic(auto, unfolding(crate::specs::Bounds::numbers_of, crate::specs::Bounds::bounds_of))]
pub fn bounds_of(a: NotedCheck, b: NotedCheck, count: u32) -> [u32; 19]
    ensures { result ≡ bounds_of a b count }
{
    let mut bounds = [count; 19];
    bounds[..9].copy_from_slice(&numbers_of(a));
    bounds[9..18].copy_from_slice(&numbers_of(b));
    bounds
}

// The numbers are put at the start of a buffer.
pub fn store(kept: &mut [u32], numbers: [u32; 19])
    requires { (19 ≤ length kept.old) × (length numbers ≡ 19) }
    ensures { kept.new ≡ numbers ++ drop 19 kept.old }
{
    kept[..19].copy_from_slice(&numbers);
}
