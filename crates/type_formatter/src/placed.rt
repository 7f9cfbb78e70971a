// The four calls with lent places (document 02, Note 3). Each takes any buffer. Where one of the entries that the types need is lacking or is another, the call
// is refused by 17 with the number of the first such entry, after 1 to 4; else it answers as the plain call does.
ghost use Rattle.std.specs.Prelude.{◌≡◌, length};
ghost use Rattle.rules.specs.Call.{of_size};
ghost use Rattle.rules.specs.Placed.{function_placed, FunctionPlacedDemand, id_placed, IdPlacedDemand, type_placed, TypePlacedDemand, size_placed, SizeAsPlain};
ghost use Rattle.checked_calls.specs.Answers.{given, laid};
ghost use Rattle.checked_calls.specs.Checks.{of_size_answer};

use checked_calls::calls::{
    check_call, check_id_call, check_types, function_over, id_over, refuse_place, refuse_size,
    size_over, type_over,
};
use checked_calls::kept::{keep_lent, keep_lent_ids};
use codeview::index::{IdIndex, TypeIndex};
use codeview::lent::Lent;
use context::flags::TypeFormatterFlags;
use record_places::check_placed;
use streams::refusal::Refusal;

// The text of a function, by its name and type.
pub fn format_function(
    types: &[u8],
    places: &[u32],
    out: &mut [u8],
    flags: u32,
    size: u32,
    name: &[u8],
    index: TypeIndex,
) -> Result<usize, Refusal>
    ensures result_after { given out.new result ≡ laid out.old (function_placed flags size types.now places.now name.now index.0 (length out.old)) }
    ensures function_placed_demand { FunctionPlacedDemand flags size types.now places.now name.now index.0 }
{
    let c = check_placed(types, places);
    let check = c.check;
    let bounds = keep_lent(check);
    let lent = Lent {
        types,
        ids: b"",
        bounds: &bounds,
        places,
    };
    match c.places {
        Ok(()) => function_over(&lent, out, flags, size, name, index),
        Err(k) => refuse_place(out, check_call(&bounds, flags, size), k),
    }
}

// The text of an id.
pub fn format_id(
    types: &[u8],
    ids: &[u8],
    places: &[u32],
    out: &mut [u8],
    flags: u32,
    size: u32,
    index: IdIndex,
) -> Result<usize, Refusal>
    ensures result_after { given out.new result ≡ laid out.old (id_placed flags size types.now ids.now places.now index.0 (length out.old)) }
    ensures id_placed_demand { IdPlacedDemand flags size types.now ids.now places.now index.0 }
{
    let c = check_placed(types, places);
    let check = c.check;
    let mut kept = [0u32; 275];
    keep_lent_ids(check, ids, &mut kept);
    let lent = Lent {
        types,
        ids,
        bounds: &kept,
        places,
    };
    match c.places {
        Ok(()) => id_over(&lent, out, flags, size, index),
        Err(k) => refuse_place(out, check_id_call(&kept, flags, size), k),
    }
}

// The text of a type.
pub fn format_type(
    types: &[u8],
    places: &[u32],
    out: &mut [u8],
    flags: u32,
    size: u32,
    index: TypeIndex,
) -> Result<usize, Refusal>
    ensures result_after { given out.new result ≡ laid out.old (type_placed flags size types.now places.now index.0 (length out.old)) }
    ensures type_placed_demand { TypePlacedDemand flags size types.now places.now index.0 }
{
    let c = check_placed(types, places);
    let check = c.check;
    let bounds = keep_lent(check);
    let lent = Lent {
        types,
        ids: b"",
        bounds: &bounds,
        places,
    };
    match c.places {
        Ok(()) => type_over(&lent, out, flags, size, index),
        Err(k) => refuse_place(out, check_call(&bounds, flags, size), k),
    }
}

// The size of a type; this call takes no flags.
pub fn get_type_size(
    types: &[u8],
    places: &[u32],
    size: u32,
    index: TypeIndex,
) -> Result<u64, Refusal>
    ensures result_value { of_size_answer result ≡ of_size (size_placed size types.now places.now index.0) }
    ensures size_as_plain { SizeAsPlain size types.now places.now index.0 }
{
    let c = check_placed(types, places);
    let check = c.check;
    let bounds = keep_lent(check);
    let lent = Lent {
        types,
        ids: b"",
        bounds: &bounds,
        places,
    };
    match c.places {
        Ok(()) => size_over(&lent, size, index),
        Err(k) => refuse_size(check_types(&bounds, TypeFormatterFlags(0), size), k),
    }
}
