// The three measures with lent places (document 02, Note 3). Each takes any buffer of places and is refused by 17 where the text call with them is.
ghost use Rattle.std.specs.Prelude.{◌≡◌};
ghost use Rattle.rules.specs.Measure.{function_placed_measure, FunctionPlacedMeasureDemand, id_placed_measure, IdPlacedMeasureDemand, type_placed_measure, TypePlacedMeasureDemand, of_measure};
ghost use Rattle.measures.specs.Measures.{of_measured};

use crate::answer::Extent;
use crate::over::{function_over, id_over, refuse_place, type_over};
use checked_calls::calls::{check_call, check_id_call};
use checked_calls::kept::{keep_lent, keep_lent_ids};
use codeview::index::{IdIndex, TypeIndex};
use codeview::lent::Lent;
use record_places::check_placed;
use streams::refusal::Refusal;

// The measure of a function, by its name and type.
pub fn measure_function(
    types: &[u8],
    places: &[u32],
    flags: u32,
    size: u32,
    name: &[u8],
    index: TypeIndex,
) -> Result<Extent, Refusal>
    ensures result_value { of_measured result ≡ of_measure (function_placed_measure flags size types.now places.now name.now index.0) }
    ensures function_placed_measure_demand { FunctionPlacedMeasureDemand flags size types.now places.now name.now index.0 }
{
    let c = check_placed(types, places);
    let check = c.check;
    let bounds = keep_lent(check);
    let lent = Lent {
        types,
        ids: b"",
        bounds: &bounds,
        places,
    };
    match c.places {
        Ok(()) => function_over(&lent, flags, size, name, index),
        Err(k) => refuse_place(check_call(&bounds, flags, size), k),
    }
}

// The measure of an id.
pub fn measure_id(
    types: &[u8],
    ids: &[u8],
    places: &[u32],
    flags: u32,
    size: u32,
    index: IdIndex,
) -> Result<Extent, Refusal>
    ensures result_value { of_measured result ≡ of_measure (id_placed_measure flags size types.now ids.now places.now index.0) }
    ensures id_placed_measure_demand { IdPlacedMeasureDemand flags size types.now ids.now places.now index.0 }
{
    let c = check_placed(types, places);
    let check = c.check;
    let mut kept = [0u32; 275];
    keep_lent_ids(check, ids, &mut kept);
    let lent = Lent {
        types,
        ids,
        bounds: &kept,
        places,
    };
    match c.places {
        Ok(()) => id_over(&lent, flags, size, index),
        Err(k) => refuse_place(check_id_call(&kept, flags, size), k),
    }
}

// The measure of a type.
pub fn measure_type(
    types: &[u8],
    places: &[u32],
    flags: u32,
    size: u32,
    index: TypeIndex,
) -> Result<Extent, Refusal>
    ensures result_value { of_measured result ≡ of_measure (type_placed_measure flags size types.now places.now index.0) }
    ensures type_placed_measure_demand { TypePlacedMeasureDemand flags size types.now places.now index.0 }
{
    let c = check_placed(types, places);
    let check = c.check;
    let bounds = keep_lent(check);
    let lent = Lent {
        types,
        ids: b"",
        bounds: &bounds,
        places,
    };
    match c.places {
        Ok(()) => type_over(&lent, flags, size, index),
        Err(k) => refuse_place(check_call(&bounds, flags, size), k),
    }
}
