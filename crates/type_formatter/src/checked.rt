// Streams checked once: a check of both streams that fills a buffer of the caller's, and the four calls, the batches and the sheet over what it left there. They take any
// numbers.
ghost use Rattle.std.specs.Prelude.{◌≡◌, [], ◌≤◌, length};
ghost use Rattle.streams.specs.declared.refusal.StreamKind.TheVariants.{Types, Ids};
ghost use Rattle.rules.specs.Places.{near_in};
ghost use Rattle.rules.specs.Call.{function_outcome, id_outcome, type_outcome, size_outcome, of_size};
ghost use Rattle.checked_calls.specs.Answers.{given, laid};
ghost use Rattle.checked_calls.specs.Checks.{function_over, id_over, type_over, size_over, of_size_answer};
ghost use Rattle.checked_calls.specs.Kept.{KeptOf, Kept, kept_in, record_count, places_for, serving, Filled};
ghost use Rattle.batch.specs.Batch.{batched, laid_batch, GoesOn, type_batch, id_batch, batch_over};
ghost use Rattle.sheet.specs.Sheet.{sheet_fit, fit_over};
ghost use Rattle.sheet.specs.Printed.{shown, laid_out, ContinuesOver};

use batch::texts_over;
use checked_calls::calls::{function_over, id_over, size_over, type_over};
use checked_calls::kept::{check_by, keep_ids, numbers_of, places_behind};
use codeview::index::{IdIndex, TypeIndex};
use codeview::lent::Lent;
use sheet::{Printed, print_over};
use streams::refusal::{Refusal, StreamKind};
use streams::stream::{Stream, header_of};

// How many records a stream has by its header, and no more than a fourth of its bytes: a header that lies asks for no long buffer.
fn record_count(s: &[u8]) -> u32
    ensures { result ≡ record_count s.now }
{
    let Some(Stream { first, end, stop }) = header_of(s) else {
        return 0;
    };
    (end - first).min((stop / 4) as u32)
}

fn places_for(stride: u32, n: u32) -> usize
    ensures { (result ≡ places_for stride n) × (result ≤ 0x2_0000_0000) }
{
    if stride == 0 {
        return 0;
    }
    // Kept: by div_ceil, which rounds by a remainder, the definition was not found.
    (n as usize + (stride as usize - 1)) / stride as usize
}

// How many of so many places the types get: what they need; and half, where the stride is one that suits.
fn split_for(stride: u32, needed: usize, room: usize) -> usize
    ensures { result ≤ room }
{
    if stride == 0 {
        return room / 2;
    }
    needed.min(room)
}

// The places of the types stand at the end of the buffer, and before them the numbers and the places of the ids.
fn keep_in(types: &[u8], ids: &[u8], stride: u32, needed: usize, checked: &mut [u32])
    requires { (19 ≤ length checked.old) × (length checked.old ≤ 0xffff_ffff) }
    ensures { Kept types.now ids.now (kept_in checked.new) }
{
    let split = checked.len() - split_for(stride, needed, checked.len() - 19);
    let a = check_by(types, StreamKind::Types, stride, &mut checked[split..]);
    keep_ids(a, ids, stride, &mut checked[..split]);
}

// Checks both streams, and leaves in the buffer what the calls below go by. Answers how many numbers of the buffer serve; with fewer the calls answer the
// same, in more time, as long as there are 19. A buffer with fewer than 19 numbers, or more than 2^32 - 1, is filled with zeros: nothing is kept.
pub fn check_streams(types: &[u8], ids: &[u8], stride: u32, checked: &mut [u32]) -> usize
    ensures value { result ≡ serving stride types.now ids.now }
    ensures filled { Filled types.now ids.now checked.old checked.new }
{
    let needed = places_for(stride, record_count(types));
    let all = 19 + (needed + places_for(stride, record_count(ids)));
    if checked.len() < 19 || 0xffff_ffff < checked.len() {
        checked.fill(0);
        return all;
    }
    keep_in(types, ids, stride, needed, checked);
    all
}

// The streams of a call, with what the buffer keeps of their check.
fn kept_lent<'a>(types: &'a [u8], ids: &'a [u8], checked: &'a [u32]) -> Lent<'a>
    ensures types { result.types.now ≡ types.now }
    ensures ids { result.ids.now ≡ ids.now }
    ensures kept { near_in result ≡ kept_in checked.now }
{
    Lent {
        types,
        ids,
        bounds: numbers_of(checked),
        places: places_behind(checked),
    }
}

// The text of a function, by its name and type.
pub fn format_function(
    types: &[u8],
    checked: &[u32],
    out: &mut [u8],
    flags: u32,
    size: u32,
    name: &[u8],
    index: TypeIndex,
) -> Result<usize, Refusal>
    ensures result_after { given out.new result ≡ laid out.old (function_over types.now (kept_in checked.now) flags size name.now index.0 (length out.old)) }
    ensures result_after_2 { KeptOf Types types.now (kept_in checked.now) → given out.new result ≡ laid out.old (function_outcome flags size types.now name.now index.0 (length out.old)) }
{
    let lent = kept_lent(types, b"", checked);
    function_over(&lent, out, flags, size, name, index)
}

// The text of an id.
pub fn format_id(
    types: &[u8],
    ids: &[u8],
    checked: &[u32],
    out: &mut [u8],
    flags: u32,
    size: u32,
    index: IdIndex,
) -> Result<usize, Refusal>
    ensures result_after { given out.new result ≡ laid out.old (id_over types.now ids.now (kept_in checked.now) flags size index.0 (length out.old)) }
    ensures result_after_2 { Kept types.now ids.now (kept_in checked.now) → given out.new result ≡ laid out.old (id_outcome flags size types.now ids.now index.0 (length out.old)) }
{
    let lent = kept_lent(types, ids, checked);
    id_over(&lent, out, flags, size, index)
}

// The text of a type.
pub fn format_type(
    types: &[u8],
    checked: &[u32],
    out: &mut [u8],
    flags: u32,
    size: u32,
    index: TypeIndex,
) -> Result<usize, Refusal>
    ensures result_after { given out.new result ≡ laid out.old (type_over types.now (kept_in checked.now) flags size index.0 (length out.old)) }
    ensures result_after_2 { KeptOf Types types.now (kept_in checked.now) → given out.new result ≡ laid out.old (type_outcome flags size types.now index.0 (length out.old)) }
{
    let lent = kept_lent(types, b"", checked);
    type_over(&lent, out, flags, size, index)
}

// The size of a type; this call takes no flags.
pub fn get_type_size(
    types: &[u8],
    checked: &[u32],
    size: u32,
    index: TypeIndex,
) -> Result<u64, Refusal>
    ensures result_value { of_size_answer result ≡ of_size (size_over types.now (kept_in checked.now) size index.0) }
    ensures result_value_2 { KeptOf Types types.now (kept_in checked.now) → of_size_answer result ≡ of_size (size_outcome size types.now index.0) }
{
    let lent = kept_lent(types, b"", checked);
    size_over(&lent, size, index)
}

// The texts of ids, one after another, with four numbers for each.
pub fn format_ids(
    types: &[u8],
    ids: &[u8],
    checked: &[u32],
    out: &mut [u8],
    flags: u32,
    size: u32,
    indexes: &[u32],
    answers: &mut [u64],
) -> usize
    ensures result_after { batched out.new answers.new result ≡ laid_batch out.old answers.old (batch_over Ids types.now ids.now (kept_in checked.now) flags size (length out.old) (length answers.old) indexes.now) }
    ensures result_after_2 { Kept types.now ids.now (kept_in checked.now) → batched out.new answers.new result ≡ laid_batch out.old answers.old (id_batch flags size types.now ids.now (length out.old) (length answers.old) indexes.now) }
    ensures goes_on { GoesOn (length answers.old) indexes.now (batch_over Ids types.now ids.now (kept_in checked.now) flags size (length out.old) (length answers.old) indexes.now) }
{
    let ids_of = StreamKind::Ids;
    let lent = kept_lent(types, ids, checked);
    texts_over(ids_of, &lent, out, flags, size, indexes, answers)
}

// The texts of types.
pub fn format_types(
    types: &[u8],
    checked: &[u32],
    out: &mut [u8],
    flags: u32,
    size: u32,
    indexes: &[u32],
    answers: &mut [u64],
) -> usize
    ensures result_after { batched out.new answers.new result ≡ laid_batch out.old answers.old (batch_over Types types.now [] (kept_in checked.now) flags size (length out.old) (length answers.old) indexes.now) }
    ensures result_after_2 { KeptOf Types types.now (kept_in checked.now) → batched out.new answers.new result ≡ laid_batch out.old answers.old (type_batch flags size types.now (length out.old) (length answers.old) indexes.now) }
    ensures goes_on { GoesOn (length answers.old) indexes.now (batch_over Types types.now [] (kept_in checked.now) flags size (length out.old) (length answers.old) indexes.now) }
{
    let types_of = StreamKind::Types;
    let lent = kept_lent(types, b"", checked);
    texts_over(types_of, &lent, out, flags, size, indexes, answers)
}

// A sheet's lines behind the first `skip` of them, as far as whole lines fit.
pub fn print_sheet(
    types: &[u8],
    ids: &[u8],
    checked: &[u32],
    sheet: &[u8],
    out: &mut [u8],
    skip: usize,
) -> Printed
    ensures result_after { shown out.new result ≡ laid_out out.old (fit_over types.now ids.now (kept_in checked.now) sheet.now skip (length out.old)) }
    ensures result_after_2 { Kept types.now ids.now (kept_in checked.now) → shown out.new result ≡ laid_out out.old (sheet_fit types.now ids.now sheet.now skip (length out.old)) }
    ensures continues_over { ContinuesOver types.now ids.now (kept_in checked.now) sheet.now skip (length out.old) }
{
    let lent = kept_lent(types, ids, checked);
    print_over(&lent, sheet, out, skip)
}
