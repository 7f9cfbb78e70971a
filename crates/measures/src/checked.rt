// The three measures over streams checked once: what `type_formatter::checked::check_streams` left in a buffer. They take any numbers.
ghost use Rattle.std.specs.Prelude.{◌≡◌};
ghost use Rattle.streams.specs.declared.refusal.StreamKind.TheVariants.{Types};
ghost use Rattle.rules.specs.Measure.{function_measure, id_measure, type_measure, measure_of, longest, of_measure};
ghost use Rattle.checked_calls.specs.Checks.{function_over, id_over, type_over};
ghost use Rattle.checked_calls.specs.Kept.{KeptOf, Kept, kept_in};
ghost use Rattle.measures.specs.Measures.{of_measured};

use crate::answer::Extent;
use crate::over::{function_over, id_over, type_over};
use checked_calls::kept::{numbers_of, places_behind};
use codeview::index::{IdIndex, TypeIndex};
use codeview::lent::Lent;
use streams::refusal::Refusal;

// The measure of a function, by its name and type.
pub fn measure_function(
    types: &[u8],
    checked: &[u32],
    flags: u32,
    size: u32,
    name: &[u8],
    index: TypeIndex,
) -> Result<Extent, Refusal>
    ensures result_value { of_measured result ≡ of_measure (measure_of (function_over types.now (kept_in checked.now) flags size name.now index.0 longest)) }
    ensures result_value_2 { KeptOf Types types.now (kept_in checked.now) → of_measured result ≡ of_measure (function_measure flags size types.now name.now index.0) }
{
    let numbers = numbers_of(checked);
    let places = places_behind(checked);
    let lent = Lent {
        types,
        ids: b"",
        bounds: numbers,
        places,
    };
    function_over(&lent, flags, size, name, index)
}

// The measure of an id.
pub fn measure_id(
    types: &[u8],
    ids: &[u8],
    checked: &[u32],
    flags: u32,
    size: u32,
    index: IdIndex,
) -> Result<Extent, Refusal>
    ensures result_value { of_measured result ≡ of_measure (measure_of (id_over types.now ids.now (kept_in checked.now) flags size index.0 longest)) }
    ensures result_value_2 { Kept types.now ids.now (kept_in checked.now) → of_measured result ≡ of_measure (id_measure flags size types.now ids.now index.0) }
{
    let numbers = numbers_of(checked);
    let places = places_behind(checked);
    let lent = Lent {
        types,
        ids,
        bounds: numbers,
        places,
    };
    id_over(&lent, flags, size, index)
}

// The measure of a type.
pub fn measure_type(
    types: &[u8],
    checked: &[u32],
    flags: u32,
    size: u32,
    index: TypeIndex,
) -> Result<Extent, Refusal>
    ensures result_value { of_measured result ≡ of_measure (measure_of (type_over types.now (kept_in checked.now) flags size index.0 longest)) }
    ensures result_value_2 { KeptOf Types types.now (kept_in checked.now) → of_measured result ≡ of_measure (type_measure flags size types.now index.0) }
{
    let numbers = numbers_of(checked);
    let places = places_behind(checked);
    let lent = Lent {
        types,
        ids: b"",
        bounds: numbers,
        places,
    };
    type_over(&lent, flags, size, index)
}
