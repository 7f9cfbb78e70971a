// The four calls: the text of a function, of an id and of a type, and the size of a type. Each checks its streams and notes places of their records;
// `checked_calls` does the rest.
#![tactic(auto)]

ghost use Rattle.std.specs.Prelude.{◌≡◌, ℕ, length};
ghost use Rattle.rules.specs.Call.{function_outcome, FunctionDemand, id_outcome, IdDemand, type_outcome, TypeDemand, size_outcome, of_size, SizeFinished};
ghost use Rattle.checked_calls.specs.Answers.{given, laid};
ghost use Rattle.checked_calls.specs.Checks.{of_size_answer};
ghost use Rattle.batch.specs.Batch.{batched, laid_batch, GoesOn, type_batch, id_batch};

use batch::texts_over;
use checked_calls::calls::{function_over, id_over, size_over, type_over};
use checked_calls::kept::{keep_both, keep_types};
use codeview::index::{IdIndex, TypeIndex};
use codeview::lent::Lent;
use streams::refusal::{Refusal, StreamKind};

pub mod checked;
pub mod placed;

// The text of a function, by its name and type.
pub fn format_function(
    types: &[u8],
    out: &mut [u8],
    flags: u32,
    size: u32,
    name: &[u8],
    index: TypeIndex,
) -> Result<usize, Refusal>
    ensures result_after { given out.new result ≡ laid out.old (function_outcome flags size types.now name.now index.0 (length out.old)) }
    ensures function_demand { FunctionDemand flags size types.now name.now index.0 }
{
    let mut places = [0u32; 256];
    let bounds = keep_types(types, &mut places);
    let lent = Lent {
        types,
        ids: b"",
        bounds: &bounds,
        places: &places,
    };
    function_over(&lent, out, flags, size, name, index)
}

// The text of an id.
pub fn format_id(
    types: &[u8],
    ids: &[u8],
    out: &mut [u8],
    flags: u32,
    size: u32,
    index: IdIndex,
) -> Result<usize, Refusal>
    ensures result_after { given out.new result ≡ laid out.old (id_outcome flags size types.now ids.now index.0 (length out.old)) }
    ensures id_demand { IdDemand flags size types.now ids.now index.0 }
{
    let mut kept = [0u32; 275];
    let mut places = [0u32; 256];
    keep_both(types, ids, &mut kept, &mut places);
    let lent = Lent {
        types,
        ids,
        bounds: &kept,
        places: &places,
    };
    id_over(&lent, out, flags, size, index)
}

// The text of a type.
pub fn format_type(
    types: &[u8],
    out: &mut [u8],
    flags: u32,
    size: u32,
    index: TypeIndex,
) -> Result<usize, Refusal>
    ensures result_after { given out.new result ≡ laid out.old (type_outcome flags size types.now index.0 (length out.old)) }
    ensures type_demand { TypeDemand flags size types.now index.0 }
{
    let mut places = [0u32; 256];
    let bounds = keep_types(types, &mut places);
    let lent = Lent {
        types,
        ids: b"",
        bounds: &bounds,
        places: &places,
    };
    type_over(&lent, out, flags, size, index)
}

// The size of a type; this call takes no flags.
pub fn get_type_size(types: &[u8], size: u32, index: TypeIndex) -> Result<u64, Refusal>
    ensures result_value { of_size_answer result ≡ of_size (size_outcome size types.now index.0) }
    ensures size_finished { SizeFinished size types.now index.0 }
{
    let mut places = [0u32; 256];
    let bounds = keep_types(types, &mut places);
    let lent = Lent {
        types,
        ids: b"",
        bounds: &bounds,
        places: &places,
    };
    size_over(&lent, size, index)
}

// The texts of ids, one after another: how many of the indexes are done. Four numbers are noted for each: refusal or 0, detail or 0, where its text starts,
// how long it is. Each stream is checked once, and a caller asks again for the rest.
pub fn format_ids(
    types: &[u8],
    ids: &[u8],
    out: &mut [u8],
    flags: u32,
    size: u32,
    indexes: &[u32],
    answers: &mut [u64],
) -> usize
    ensures result_after { batched out.new answers.new result ≡ laid_batch out.old answers.old (id_batch flags size types.now ids.now (length out.old) (length answers.old) indexes.now) }
    ensures goes_on { GoesOn (length answers.old) indexes.now (id_batch flags size types.now ids.now (length out.old) (length answers.old) indexes.now) }
    ensures by_index { (index : ℕ) → IdDemand flags size types.now ids.now index }
{
    let mut kept = [0u32; 4115];
    let mut places = [0u32; 4096];
    keep_both(types, ids, &mut kept, &mut places);
    let ids_of = StreamKind::Ids;
    let lent = Lent {
        types,
        ids,
        bounds: &kept,
        places: &places,
    };
    texts_over(ids_of, &lent, out, flags, size, indexes, answers)
}

// The texts of types.
pub fn format_types(
    types: &[u8],
    out: &mut [u8],
    flags: u32,
    size: u32,
    indexes: &[u32],
    answers: &mut [u64],
) -> usize
    ensures result_after { batched out.new answers.new result ≡ laid_batch out.old answers.old (type_batch flags size types.now (length out.old) (length answers.old) indexes.now) }
    ensures goes_on { GoesOn (length answers.old) indexes.now (type_batch flags size types.now (length out.old) (length answers.old) indexes.now) }
    ensures by_index { (index : ℕ) → TypeDemand flags size types.now index }
{
    let mut places = [0u32; 4096];
    let bounds = keep_types(types, &mut places);
    let types_of = StreamKind::Types;
    let lent = Lent {
        types,
        ids: b"",
        bounds: &bounds,
        places: &places,
    };
    texts_over(types_of, &lent, out, flags, size, indexes, answers)
}
