// The calls for programs in C and Rust: each of the four calls, the measures, the batches, the sheet, the places and the container under its plain name, with
// numbers and slices only. What a call answers beside its number goes into numbers that the caller lends. `c/yokberd.h` says the same to a C program.
#![tactic(auto)]

ghost use Rattle.std.specs.Prelude.{◌≡◌, [], ℕ, length};
ghost use Rattle.rules.specs.Call.{function_outcome, FunctionDemand, id_outcome, IdDemand, type_outcome, TypeDemand, size_outcome, SizeFinished, report, of_size};
ghost use Rattle.rules.specs.Placed.{function_placed, FunctionPlacedDemand, id_placed, IdPlacedDemand, type_placed, TypePlacedDemand, size_placed, SizeAsPlain};
ghost use Rattle.record_places.specs.RecordPlaces.{fill_pass};
ghost use Rattle.checked_calls.specs.Answers.{left, of_answer, laid};
ghost use Rattle.streams.specs.declared.refusal.StreamKind.TheVariants.{Types, Ids};
ghost use Rattle.checked_calls.specs.Checks.{function_over, id_over, type_over, size_over, of_size_answer};
ghost use Rattle.checked_calls.specs.Kept.{KeptOf, Kept, kept_in, serving, Filled};
ghost use Rattle.batch.specs.Batch.{batched, laid_batch, GoesOn, type_batch, id_batch, batch_over};
ghost use Rattle.sheet.specs.Sheet.{sheet_fit, fit_over};
ghost use Rattle.sheet.specs.Printed.{laid_out, SheetContinues, ContinuesOver};
ghost use Rattle.msf.specs.Contents.{stream_of, laid as laid_stream};
ghost use Rattle.yokberd.specs.Report.{counts, of_printed, of_fit, told, of_read, of_pass};

use codeview::index::{IdIndex, TypeIndex};
use msf::damage::Damage;
use msf::read_stream;
use record_places::fill_places;
use sheet::{Printed, print_sheet};
use streams::refusal::Refusal;
use type_formatter::checked::check_streams;
use type_formatter::{
    checked, format_function, format_id, format_ids, format_type, format_types, get_type_size,
    placed,
};

pub mod measure;

// What a call answers that counts: the bytes of a text, or the entries that were filled.
#[tactic(auto, unfolding(checked_calls::specs::Answers::of_answer, crate::specs::Report::of_pass))]
fn report_count(a: Result<usize, Refusal>, detail: &mut u32, count: &mut usize) -> u32
    ensures text { report result detail.new count.new ≡ of_answer a }
    ensures pass { report result detail.new count.new ≡ of_pass a }
{
    match a {
        Ok(n) => {
            *detail = 0;
            *count = n;
            0
        }
        Err(f) => {
            *detail = f.detail();
            *count = 0;
            f.number()
        }
    }
}

// Kept: a size is a u64 and a count a usize; one function over both needs a trait that says what number each is.
#[tactic(auto, unfolding(checked_calls::specs::Checks::of_size_answer))]
fn report_size(a: Result<u64, Refusal>, detail: &mut u32, bytes: &mut u64) -> u32
    ensures { report result detail.new bytes.new ≡ of_size_answer a }
{
    match a {
        Ok(n) => {
            *detail = 0;
            *bytes = n;
            0
        }
        Err(f) => {
            *detail = f.detail();
            *bytes = 0;
            f.number()
        }
    }
}

fn report_printed(p: Printed, bytes: &mut usize, lines: &mut usize) -> u32
    ensures { counts result bytes.new lines.new ≡ of_printed p }
{
    *bytes = p.bytes;
    *lines = p.lines;
    u32::from(p.more)
}

#[tactic(auto, unfolding(crate::specs::Report::of_read))]
fn report_stream(a: Result<usize, Damage>, at: &mut usize, len: &mut usize) -> u32
    ensures { told result at.new len.new ≡ of_read a }
{
    match a {
        Ok(n) => {
            *at = 0;
            *len = n;
            0
        }
        Err(d) => {
            *at = d.place();
            *len = 0;
            d.number()
        }
    }
}

// The text of a function, by its name and type.
pub fn yokberd_format_function(
    types: &[u8],
    out: &mut [u8],
    flags: u32,
    size: u32,
    name: &[u8],
    index: u32,
    detail: &mut u32,
    written: &mut usize,
) -> u32
    ensures written_after { left out.new (report result detail.new written.new) ≡ laid out.old (function_outcome flags size types.now name.now index (length out.old)) }
    ensures function_demand { FunctionDemand flags size types.now name.now index }
{
    let a = format_function(types, out, flags, size, name, TypeIndex(index));
    report_count(a, detail, written)
}

// The text of an id.
pub fn yokberd_format_id(
    types: &[u8],
    ids: &[u8],
    out: &mut [u8],
    flags: u32,
    size: u32,
    index: u32,
    detail: &mut u32,
    written: &mut usize,
) -> u32
    ensures written_after { left out.new (report result detail.new written.new) ≡ laid out.old (id_outcome flags size types.now ids.now index (length out.old)) }
    ensures id_demand { IdDemand flags size types.now ids.now index }
{
    let a = format_id(types, ids, out, flags, size, IdIndex(index));
    report_count(a, detail, written)
}

// The text of a type.
pub fn yokberd_format_type(
    types: &[u8],
    out: &mut [u8],
    flags: u32,
    size: u32,
    index: u32,
    detail: &mut u32,
    written: &mut usize,
) -> u32
    ensures written_after { left out.new (report result detail.new written.new) ≡ laid out.old (type_outcome flags size types.now index (length out.old)) }
    ensures type_demand { TypeDemand flags size types.now index }
{
    let a = format_type(types, out, flags, size, TypeIndex(index));
    report_count(a, detail, written)
}

// The size of a type; this call takes no flags.
pub fn yokberd_get_type_size(
    types: &[u8],
    size: u32,
    index: u32,
    detail: &mut u32,
    bytes: &mut u64,
) -> u32
    ensures bytes_after { report result detail.new bytes.new ≡ of_size (size_outcome size types.now index) }
    ensures size_finished { SizeFinished size types.now index }
{
    let a = get_type_size(types, size, TypeIndex(index));
    report_size(a, detail, bytes)
}

// The texts of ids, one after another, with four numbers for each: how many of the indexes are done.
pub fn yokberd_format_ids(
    types: &[u8],
    ids: &[u8],
    out: &mut [u8],
    flags: u32,
    size: u32,
    indexes: &[u32],
    answers: &mut [u64],
) -> usize
    ensures result_after { batched out.new answers.new result ≡ laid_batch out.old answers.old (id_batch flags size types.now ids.now (length out.old) (length answers.old) indexes.now) }
    ensures goes_on { GoesOn (length answers.old) indexes.now (id_batch flags size types.now ids.now (length out.old) (length answers.old) indexes.now) }
    ensures by_index { (index : ℕ) → IdDemand flags size types.now ids.now index }
{
    format_ids(types, ids, out, flags, size, indexes, answers)
}

// The texts of types, one after another, with four numbers for each: how many of the indexes are done.
pub fn yokberd_format_types(
    types: &[u8],
    out: &mut [u8],
    flags: u32,
    size: u32,
    indexes: &[u32],
    answers: &mut [u64],
) -> usize
    ensures result_after { batched out.new answers.new result ≡ laid_batch out.old answers.old (type_batch flags size types.now (length out.old) (length answers.old) indexes.now) }
    ensures goes_on { GoesOn (length answers.old) indexes.now (type_batch flags size types.now (length out.old) (length answers.old) indexes.now) }
    ensures by_index { (index : ℕ) → TypeDemand flags size types.now index }
{
    format_types(types, out, flags, size, indexes, answers)
}

// Checks both streams once, and leaves in a buffer what the calls below go by: how many numbers of it serve.
pub fn yokberd_check_streams(types: &[u8], ids: &[u8], stride: u32, checked: &mut [u32]) -> usize
    ensures value { result ≡ serving stride types.now ids.now }
    ensures filled { Filled types.now ids.now checked.old checked.new }
{
    check_streams(types, ids, stride, checked)
}

// The text of a function over streams that were checked before.
pub fn yokberd_checked_format_function(
    types: &[u8],
    checked: &[u32],
    out: &mut [u8],
    flags: u32,
    size: u32,
    name: &[u8],
    index: u32,
    detail: &mut u32,
    written: &mut usize,
) -> u32
    ensures written_after { left out.new (report result detail.new written.new) ≡ laid out.old (function_over types.now (kept_in checked.now) flags size name.now index (length out.old)) }
    ensures written_after_2 { KeptOf Types types.now (kept_in checked.now) → left out.new (report result detail.new written.new) ≡ laid out.old (function_outcome flags size types.now name.now index (length out.old)) }
{
    let a = checked::format_function(types, checked, out, flags, size, name, TypeIndex(index));
    report_count(a, detail, written)
}

// The text of an id.
pub fn yokberd_checked_format_id(
    types: &[u8],
    ids: &[u8],
    checked: &[u32],
    out: &mut [u8],
    flags: u32,
    size: u32,
    index: u32,
    detail: &mut u32,
    written: &mut usize,
) -> u32
    ensures written_after { left out.new (report result detail.new written.new) ≡ laid out.old (id_over types.now ids.now (kept_in checked.now) flags size index (length out.old)) }
    ensures written_after_2 { Kept types.now ids.now (kept_in checked.now) → left out.new (report result detail.new written.new) ≡ laid out.old (id_outcome flags size types.now ids.now index (length out.old)) }
{
    let a = checked::format_id(types, ids, checked, out, flags, size, IdIndex(index));
    report_count(a, detail, written)
}

// The text of a type.
pub fn yokberd_checked_format_type(
    types: &[u8],
    checked: &[u32],
    out: &mut [u8],
    flags: u32,
    size: u32,
    index: u32,
    detail: &mut u32,
    written: &mut usize,
) -> u32
    ensures written_after { left out.new (report result detail.new written.new) ≡ laid out.old (type_over types.now (kept_in checked.now) flags size index (length out.old)) }
    ensures written_after_2 { KeptOf Types types.now (kept_in checked.now) → left out.new (report result detail.new written.new) ≡ laid out.old (type_outcome flags size types.now index (length out.old)) }
{
    let a = checked::format_type(types, checked, out, flags, size, TypeIndex(index));
    report_count(a, detail, written)
}

// The size of a type; this call takes no flags.
pub fn yokberd_checked_get_type_size(
    types: &[u8],
    checked: &[u32],
    size: u32,
    index: u32,
    detail: &mut u32,
    bytes: &mut u64,
) -> u32
    ensures bytes_after { report result detail.new bytes.new ≡ of_size (size_over types.now (kept_in checked.now) size index) }
    ensures bytes_after_2 { KeptOf Types types.now (kept_in checked.now) → report result detail.new bytes.new ≡ of_size (size_outcome size types.now index) }
{
    let a = checked::get_type_size(types, checked, size, TypeIndex(index));
    report_size(a, detail, bytes)
}

// The texts of ids over streams that were checked before.
pub fn yokberd_checked_format_ids(
    types: &[u8],
    ids: &[u8],
    checked: &[u32],
    out: &mut [u8],
    flags: u32,
    size: u32,
    indexes: &[u32],
    answers: &mut [u64],
) -> usize
    ensures result_after { batched out.new answers.new result ≡ laid_batch out.old answers.old (batch_over Ids types.now ids.now (kept_in checked.now) flags size (length out.old) (length answers.old) indexes.now) }
    ensures result_after_2 { Kept types.now ids.now (kept_in checked.now) → batched out.new answers.new result ≡ laid_batch out.old answers.old (id_batch flags size types.now ids.now (length out.old) (length answers.old) indexes.now) }
    ensures goes_on { GoesOn (length answers.old) indexes.now (batch_over Ids types.now ids.now (kept_in checked.now) flags size (length out.old) (length answers.old) indexes.now) }
{
    checked::format_ids(types, ids, checked, out, flags, size, indexes, answers)
}

// The texts of types over streams that were checked before.
pub fn yokberd_checked_format_types(
    types: &[u8],
    checked: &[u32],
    out: &mut [u8],
    flags: u32,
    size: u32,
    indexes: &[u32],
    answers: &mut [u64],
) -> usize
    ensures result_after { batched out.new answers.new result ≡ laid_batch out.old answers.old (batch_over Types types.now [] (kept_in checked.now) flags size (length out.old) (length answers.old) indexes.now) }
    ensures result_after_2 { KeptOf Types types.now (kept_in checked.now) → batched out.new answers.new result ≡ laid_batch out.old answers.old (type_batch flags size types.now (length out.old) (length answers.old) indexes.now) }
    ensures goes_on { GoesOn (length answers.old) indexes.now (batch_over Types types.now [] (kept_in checked.now) flags size (length out.old) (length answers.old) indexes.now) }
{
    checked::format_types(types, checked, out, flags, size, indexes, answers)
}

// Fills the front of a buffer with the places of the type records 0, 64, 128 and on.
pub fn yokberd_fill_places(
    types: &[u8],
    places: &mut [u32],
    detail: &mut u32,
    filled: &mut usize,
) -> u32
    ensures filled_after { report result detail.new filled.new ≡ of_pass (fill_pass types.now places.old).told }
    ensures places_after { places.new ≡ (fill_pass types.now places.old).buf }
{
    let a = fill_places(types, places);
    report_count(a, detail, filled)
}

// The text of a function, with lent places.
pub fn yokberd_placed_format_function(
    types: &[u8],
    places: &[u32],
    out: &mut [u8],
    flags: u32,
    size: u32,
    name: &[u8],
    index: u32,
    detail: &mut u32,
    written: &mut usize,
) -> u32
    ensures written_after { left out.new (report result detail.new written.new) ≡ laid out.old (function_placed flags size types.now places.now name.now index (length out.old)) }
    ensures function_placed_demand { FunctionPlacedDemand flags size types.now places.now name.now index }
{
    let a = placed::format_function(types, places, out, flags, size, name, TypeIndex(index));
    report_count(a, detail, written)
}

// The text of an id, with lent places.
pub fn yokberd_placed_format_id(
    types: &[u8],
    ids: &[u8],
    places: &[u32],
    out: &mut [u8],
    flags: u32,
    size: u32,
    index: u32,
    detail: &mut u32,
    written: &mut usize,
) -> u32
    ensures written_after { left out.new (report result detail.new written.new) ≡ laid out.old (id_placed flags size types.now ids.now places.now index (length out.old)) }
    ensures id_placed_demand { IdPlacedDemand flags size types.now ids.now places.now index }
{
    let a = placed::format_id(types, ids, places, out, flags, size, IdIndex(index));
    report_count(a, detail, written)
}

// The text of a type, with lent places.
pub fn yokberd_placed_format_type(
    types: &[u8],
    places: &[u32],
    out: &mut [u8],
    flags: u32,
    size: u32,
    index: u32,
    detail: &mut u32,
    written: &mut usize,
) -> u32
    ensures written_after { left out.new (report result detail.new written.new) ≡ laid out.old (type_placed flags size types.now places.now index (length out.old)) }
    ensures type_placed_demand { TypePlacedDemand flags size types.now places.now index }
{
    let a = placed::format_type(types, places, out, flags, size, TypeIndex(index));
    report_count(a, detail, written)
}

// The size of a type, with lent places; this call takes no flags.
pub fn yokberd_placed_get_type_size(
    types: &[u8],
    places: &[u32],
    size: u32,
    index: u32,
    detail: &mut u32,
    bytes: &mut u64,
) -> u32
    ensures bytes_after { report result detail.new bytes.new ≡ of_size (size_placed size types.now places.now index) }
    ensures size_as_plain { SizeAsPlain size types.now places.now index }
{
    let a = placed::get_type_size(types, places, size, TypeIndex(index));
    report_size(a, detail, bytes)
}

// A sheet's lines behind the first `skip` of them, as far as whole lines fit: 1 where lines are left, else 0.
pub fn yokberd_print_sheet(
    types: &[u8],
    ids: &[u8],
    sheet: &[u8],
    out: &mut [u8],
    skip: usize,
    bytes: &mut usize,
    lines: &mut usize,
) -> u32
    ensures lines_after { counts result bytes.new lines.new ≡ of_fit (sheet_fit types.now ids.now sheet.now skip (length out.old)) }
    ensures out_after { out.new ≡ (laid_out out.old (sheet_fit types.now ids.now sheet.now skip (length out.old))).buf }
    ensures sheet_continues { SheetContinues types.now ids.now sheet.now skip (length out.old) }
{
    let p = print_sheet(types, ids, sheet, out, skip);
    report_printed(p, bytes, lines)
}

// A sheet's lines over streams that were checked before.
pub fn yokberd_checked_print_sheet(
    types: &[u8],
    ids: &[u8],
    checked: &[u32],
    sheet: &[u8],
    out: &mut [u8],
    skip: usize,
    bytes: &mut usize,
    lines: &mut usize,
) -> u32
    ensures lines_after { counts result bytes.new lines.new ≡ of_fit (fit_over types.now ids.now (kept_in checked.now) sheet.now skip (length out.old)) }
    ensures out_after { out.new ≡ (laid_out out.old (fit_over types.now ids.now (kept_in checked.now) sheet.now skip (length out.old))).buf }
    ensures lines_after_2 { Kept types.now ids.now (kept_in checked.now) → (counts result bytes.new lines.new ≡ of_fit (sheet_fit types.now ids.now sheet.now skip (length out.old))) × (out.new ≡ (laid_out out.old (sheet_fit types.now ids.now sheet.now skip (length out.old))).buf) }
    ensures continues_over { ContinuesOver types.now ids.now (kept_in checked.now) sheet.now skip (length out.old) }
{
    let p = checked::print_sheet(types, ids, checked, sheet, out, skip);
    report_printed(p, bytes, lines)
}

// The bytes of a stream of a .pdb file, by its number.
pub fn yokberd_read_stream(
    file: &[u8],
    number: u32,
    out: &mut [u8],
    at: &mut usize,
    len: &mut usize,
) -> u32
    ensures len_after { told result at.new len.new ≡ of_read (laid_stream out.old (stream_of file.now number (length out.old))).told }
    ensures out_after { out.new ≡ (laid_stream out.old (stream_of file.now number (length out.old))).buf }
{
    let a = read_stream(file, number, out);
    report_stream(a, at, len)
}
