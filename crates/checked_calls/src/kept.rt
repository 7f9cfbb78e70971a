// What is kept of the checks of a call's streams: the numbers that they found, and the places that they noted or that were lent.
ghost use Rattle.std.specs.Prelude.{◌≡◌, List, ℕ, ◌+◌, ◌≤◌, min, length, take, drop, get_or};
ghost use Rattle.streams.specs.Stream.{checked};
ghost use Rattle.streams.specs.Places.{NotedFor};
ghost use Rattle.streams.specs.declared.refusal.StreamKind.TheVariants.{Types, Ids};
ghost use Rattle.rules.specs.Places.{near};
ghost use Rattle.checked_calls.specs.Kept.{KeptOf, Kept, KeptBeside, note_of, LentKept};

use streams::bounds::{bounds_of, number_at, store};
use streams::chains::check_stream;
use streams::places::{NotedCheck, check_with_stride, strided_by, wide};
use streams::refusal::{Refusal, StreamKind};
use streams::stream::Stream;

// The ids where a call is not for an id.
fn unchecked_ids() -> NotedCheck {
    NotedCheck {
        check: Err(Refusal::Header(StreamKind::Ids)),
        spacing: strided_by(1, 0),
    }
}

// The check of a stream, which notes every `stride`-th place; for a stride of 0, as many as there is room for.
pub fn check_by(s: &[u8], which: StreamKind, stride: u32, places: &mut [u32]) -> NotedCheck
    ensures { NotedFor which s.now places.old places.new result }
{
    if stride == 0 {
        return check_stream(s, which, places);
    }
    check_with_stride(s, which, stride, places)
}

// What is kept of the types' check alone.
pub fn keep_types(types: &[u8], places: &mut [u32]) -> [u32; 19]
    ensures { KeptOf Types types.now (near result places.new) }
{
    let a = check_stream(types, StreamKind::Types, places);
    bounds_of(a, unchecked_ids(), 0)
}

// The ids' check beside one of the types: the numbers of both, and behind them the places of the ids.
pub fn keep_ids(a: NotedCheck, ids: &[u8], stride: u32, kept: &mut [u32])
    requires { (19 ≤ length kept.old) × (length kept.old ≤ 0xffff_ffff) }
    ensures { KeptBeside a ids.now kept.old kept.new }
{
    let count = (kept.len() - 19) as u32;
    let b = check_by(ids, StreamKind::Ids, stride, &mut kept[19..]);
    store(kept, bounds_of(a, b, count));
}

// What is kept of both checks: the numbers with the places of the ids, and the places of the types.
pub fn keep_both(types: &[u8], ids: &[u8], kept: &mut [u32], places: &mut [u32])
    requires { (19 ≤ length kept.old) × (length kept.old ≤ 0xffff_ffff) }
    ensures { Kept types.now ids.now (near kept.new places.new) }
{
    let a = check_stream(types, StreamKind::Types, places);
    keep_ids(a, ids, 0, kept);
}

// What is kept for a call with lent places, by the check of the types: every 64th record has a place.
fn by_lent(check: Result<Stream, Refusal>) -> NotedCheck
    ensures { result ≡ note_of check }
{
    NotedCheck {
        check,
        spacing: strided_by(64, 0xffff_ffff),
    }
}

pub fn keep_lent(check: Result<Stream, Refusal>) -> [u32; 19]
    ensures { (types ps : List ℕ) → check ≡ checked Types types → LentKept types ps result }
{
    bounds_of(by_lent(check), unchecked_ids(), 0)
}

// The same beside the ids' check.
pub fn keep_lent_ids(check: Result<Stream, Refusal>, ids: &[u8], kept: &mut [u32])
    requires { (19 ≤ length kept.old) × (length kept.old ≤ 0xffff_ffff) }
    ensures { (types ps : List ℕ) → check ≡ checked Types types → LentKept types ps kept.new × KeptOf Ids ids.now (near kept.new ps) }
{
    keep_ids(by_lent(check), ids, 0, kept);
}

// Where the places of the types start in a buffer of the caller's.
fn split_of(checked: &[u32]) -> usize
    ensures { result ≡ min (19 + get_or checked.now 18 0) (length checked.now) }
{
    (19 + wide(number_at(checked, 18))).min(checked.len())
}

// The numbers at the start of a buffer with the places of the ids, and the places of the types behind them.
pub fn numbers_of<'a>(checked: &'a [u32]) -> &'a [u32]
    ensures { result.now ≡ take (19 + get_or checked.now 18 0) checked.now }
{
    let n = split_of(checked);
    &checked[..n]
}

pub fn places_behind<'a>(checked: &'a [u32]) -> &'a [u32]
    ensures { result.now ≡ drop (19 + get_or checked.now 18 0) checked.now }
{
    let n = split_of(checked);
    &checked[n..]
}
