// The four calls over what is kept of the stream checks, so that a caller may check each stream once for many calls. They take any numbers and any places.
ghost use Rattle.std.specs.Prelude.{◌≡◌, ◌||◌, eqb, length};
ghost use Rattle.streams.specs.Bounds.{check_in};
ghost use Rattle.streams.specs.declared.refusal.StreamKind.TheVariants.{Types, Ids};
ghost use Rattle.rules.specs.Call.{within, size_answer, of_size};
ghost use Rattle.rules.specs.Places.{near_in};
ghost use Rattle.pen.specs.Page.{page, Wrote};
ghost use Rattle.checked_calls.specs.Answers.{given, settled, laid, started};
ghost use Rattle.checked_calls.specs.Checks.{types_by, call_by, ids_by, function_walk, id_walk, type_walk, function_over, id_over, type_over, size_over, of_size_answer, unplaced, place_refusal};

use crate::answer::{answer_of, settle, start};
use codeview::index::{IdIndex, TypeIndex};
use codeview::lent::Lent;
use context::flags::{Call, TypeFormatterFlags};
use emit::emit_type_index;
use id_writers::{emit_function, emit_id};
use pen::Pen;
use queries::sizes::{TooLong, get_type_size};
use streams::bounds::check_in;
use streams::refusal::{Refusal, StreamKind};

fn is_pointer_size(size: u32) -> bool
    ensures { result ≡ (eqb size 4 || (eqb size 8 || eqb size 16)) }
{
    size == 4 || size == 8 || size == 16
}

// A call with its flags known: the pointer size, then the types.
#[tactic(auto, unfolding(crate::specs::Checks::types_by, rules::specs::Flags::sized))]
pub fn check_types(bounds: &[u32], flags: TypeFormatterFlags, size: u32) -> Result<Call, Refusal>
    ensures { result ≡ types_by (check_in bounds.now Types) flags size }
{
    if !is_pointer_size(size) {
        return Err(Refusal::PointerSize(size));
    }
    check_in(bounds, StreamKind::Types)?;
    Ok(Call {
        flags,
        size,
        chain: 0,
    })
}

#[tactic(auto, unfolding(crate::specs::Checks::call_by, rules::specs::Flags::flagged, context::specs::Context::known))]
pub fn check_call(bounds: &[u32], flags: u32, size: u32) -> Result<Call, Refusal>
    ensures { result ≡ call_by (check_in bounds.now Types) flags size }
{
    let known = TypeFormatterFlags::from_bits(flags)?;
    check_types(bounds, known, size)
}

// The ids too.
#[tactic(auto, unfolding(crate::specs::Checks::ids_by))]
pub fn check_id_call(bounds: &[u32], flags: u32, size: u32) -> Result<Call, Refusal>
    ensures { result ≡ ids_by (check_in bounds.now Types) (check_in bounds.now Ids) flags size }
{
    let call = check_call(bounds, flags, size)?;
    check_in(bounds, StreamKind::Ids)?;
    Ok(call)
}

// The walk of a function, by its name and type, from the start of a buffer and up to a limit: the pen that it leaves. A call that its checks refuse leaves a
// refused pen.
pub fn walk_function(
    lent: &Lent,
    out: &mut [u8],
    limit: usize,
    flags: u32,
    size: u32,
    name: &[u8],
    index: TypeIndex,
) -> Pen
    ensures { Wrote (page out.old (started limit)) (function_walk lent.now.types.now (near_in lent.now) flags size name.now index.0) (page out.new result) }
{
    let lent = Lent { ids: b"", ..*lent };
    let c = start(limit);
    match check_call(lent.bounds, flags, size) {
        Ok(call) => emit_function(&lent, out, c, call, name, index),
        Err(f) => pen::refuse(out, c, f),
    }
}

// The walk of an id.
pub fn walk_id(
    lent: &Lent,
    out: &mut [u8],
    limit: usize,
    flags: u32,
    size: u32,
    index: IdIndex,
) -> Pen
    ensures { Wrote (page out.old (started limit)) (id_walk lent.now.types.now lent.now.ids.now (near_in lent.now) flags size index.0) (page out.new result) }
{
    let first = start(limit);
    match check_id_call(lent.bounds, flags, size) {
        Ok(call) => emit_id(lent, out, first, call, 32, index),
        Err(f) => pen::refuse(out, first, f),
    }
}

// The walk of a type.
pub fn walk_type(
    lent: &Lent,
    out: &mut [u8],
    limit: usize,
    flags: u32,
    size: u32,
    index: TypeIndex,
) -> Pen
    ensures { Wrote (page out.old (started limit)) (type_walk lent.now.types.now (near_in lent.now) flags size index.0) (page out.new result) }
{
    let lent = Lent { ids: b"", ..*lent };
    let a = start(limit);
    match check_call(lent.bounds, flags, size) {
        Ok(call) => {
            let mut none = [0u64; 96];
            emit_type_index(&lent, out, a, call, &mut none, 96, index)
        }
        Err(f) => pen::refuse(out, a, f),
    }
}

// The text of a function at the start of the buffer. The buffer of a refused call holds what was written until then.
fn function_text(
    lent: &Lent,
    out: &mut [u8],
    flags: u32,
    size: u32,
    name: &[u8],
    index: TypeIndex,
) -> Result<usize, Refusal>
    ensures { settled out.new result ≡ laid out.old (function_over lent.now.types.now (near_in lent.now) flags size name.now index.0 (length out.old)) }
{
    let room = out.len();
    let p = walk_function(lent, out, room, flags, size, name, index);
    answer_of(p)
}

// The text of an id.
pub fn id_text(
    lent: &Lent,
    out: &mut [u8],
    flags: u32,
    size: u32,
    index: IdIndex,
) -> Result<usize, Refusal>
    ensures { settled out.new result ≡ laid out.old (id_over lent.now.types.now lent.now.ids.now (near_in lent.now) flags size index.0 (length out.old)) }
{
    let room = out.len();
    let p = walk_id(lent, out, room, flags, size, index);
    answer_of(p)
}

// The text of a type.
pub fn type_text(
    lent: &Lent,
    out: &mut [u8],
    flags: u32,
    size: u32,
    index: TypeIndex,
) -> Result<usize, Refusal>
    ensures { settled out.new result ≡ laid out.old (type_over lent.now.types.now (near_in lent.now) flags size index.0 (length out.old)) }
{
    let room = out.len();
    let p = walk_type(lent, out, room, flags, size, index);
    answer_of(p)
}

// The call for a function: its text, or a refusal and zeros.
pub fn function_over(
    lent: &Lent,
    out: &mut [u8],
    flags: u32,
    size: u32,
    name: &[u8],
    index: TypeIndex,
) -> Result<usize, Refusal>
    ensures { given out.new result ≡ laid out.old (function_over lent.now.types.now (near_in lent.now) flags size name.now index.0 (length out.old)) }
{
    let a = function_text(lent, out, flags, size, name, index);
    settle(out, a)
}

// The call for an id.
pub fn id_over(
    lent: &Lent,
    out: &mut [u8],
    flags: u32,
    size: u32,
    index: IdIndex,
) -> Result<usize, Refusal>
    ensures { given out.new result ≡ laid out.old (id_over lent.now.types.now lent.now.ids.now (near_in lent.now) flags size index.0 (length out.old)) }
{
    let a = id_text(lent, out, flags, size, index);
    settle(out, a)
}

// The call for a type.
pub fn type_over(
    lent: &Lent,
    out: &mut [u8],
    flags: u32,
    size: u32,
    index: TypeIndex,
) -> Result<usize, Refusal>
    ensures { given out.new result ≡ laid out.old (type_over lent.now.types.now (near_in lent.now) flags size index.0 (length out.old)) }
{
    let a = type_text(lent, out, flags, size, index);
    settle(out, a)
}

// The size of a type; this call takes no flags.
pub fn size_over(lent: &Lent, size: u32, index: TypeIndex) -> Result<u64, Refusal>
    ensures { of_size_answer result ≡ of_size (size_over lent.now.types.now (near_in lent.now) size index.0) }
{
    let call = match check_types(lent.bounds, TypeFormatterFlags(0), size) {
        Ok(call) => call,
        Err(f) => return Err(f),
    };
    match get_type_size(lent, call, index, 0) {
        Ok(n) => Ok(n),
        Err(TooLong(i)) => Err(Refusal::ChainTooLong(i)),
    }
}

// What a call with a wrong place is refused with: 17, where its checks are good.
fn place_refusal(checked: Result<Call, Refusal>, entry: u32) -> Refusal
    ensures { result ≡ place_refusal checked entry }
{
    match checked {
        Ok(_) => Refusal::WrongPlace(entry),
        Err(f) => f,
    }
}

// A text call with a wrong place.
pub fn refuse_place(
    out: &mut [u8],
    checked: Result<Call, Refusal>,
    entry: u32,
) -> Result<usize, Refusal>
    ensures { given out.new result ≡ laid out.old (within (length out.old) (unplaced checked entry)) }
{
    settle(out, Err(place_refusal(checked, entry)))
}

// A size call with a wrong place.
pub fn refuse_size(checked: Result<Call, Refusal>, entry: u32) -> Result<u64, Refusal>
    ensures { of_size_answer result ≡ of_size (size_answer (within 1 (unplaced checked entry))) }
{
    Err(place_refusal(checked, entry))
}
