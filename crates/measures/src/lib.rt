// Measuring (document 02, Note 4): how long the text of a function, of an id or of a type will be, and how many indexes are opened for it. No buffer is lent, and
// nothing is written. Each call checks its streams, as the text calls do.
#![tactic(auto)]

ghost use Rattle.std.specs.Prelude.{◌≡◌};
ghost use Rattle.rules.specs.Measure.{function_measure, FunctionMeasureDemand, id_measure, IdMeasureDemand, type_measure, TypeMeasureDemand, of_measure};
ghost use Rattle.measures.specs.Measures.{of_measured};

use crate::answer::Extent;
use checked_calls::kept::{keep_both, keep_types};
use codeview::index::{IdIndex, TypeIndex};
use codeview::lent::Lent;
use over::{function_over, id_over, type_over};
use streams::refusal::Refusal;

pub mod answer;
pub mod checked;
pub mod over;
pub mod placed;

// The measure of a function, by its name and type.
pub fn measure_function(
    types: &[u8],
    flags: u32,
    size: u32,
    name: &[u8],
    index: TypeIndex,
) -> Result<Extent, Refusal>
    ensures result_value { of_measured result ≡ of_measure (function_measure flags size types.now name.now index.0) }
    ensures function_measure_demand { FunctionMeasureDemand flags size types.now name.now index.0 }
{
    let mut places = [0u32; 256];
    let bounds = keep_types(types, &mut places);
    let lent = Lent {
        types,
        ids: b"",
        bounds: &bounds,
        places: &places,
    };
    function_over(&lent, flags, size, name, index)
}

// The measure of an id.
pub fn measure_id(
    types: &[u8],
    ids: &[u8],
    flags: u32,
    size: u32,
    index: IdIndex,
) -> Result<Extent, Refusal>
    ensures result_value { of_measured result ≡ of_measure (id_measure flags size types.now ids.now index.0) }
    ensures id_measure_demand { IdMeasureDemand flags size types.now ids.now index.0 }
{
    let mut kept = [0u32; 275];
    let mut places = [0u32; 256];
    keep_both(types, ids, &mut kept, &mut places);
    let lent = Lent {
        types,
        ids,
        bounds: &kept,
        places: &places,
    };
    id_over(&lent, flags, size, index)
}

// The measure of a type.
pub fn measure_type(
    types: &[u8],
    flags: u32,
    size: u32,
    index: TypeIndex,
) -> Result<Extent, Refusal>
    ensures result_value { of_measured result ≡ of_measure (type_measure flags size types.now index.0) }
    ensures type_measure_demand { TypeMeasureDemand flags size types.now index.0 }
{
    let mut places = [0u32; 256];
    let bounds = keep_types(types, &mut places);
    let lent = Lent {
        types,
        ids: b"",
        bounds: &bounds,
        places: &places,
    };
    type_over(&lent, flags, size, index)
}
