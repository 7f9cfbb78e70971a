// The measures for programs in C and Rust (document 02, Note 4): how long a text will be and how many indexes are opened for it, each into a number that the
// caller lends; plainly, over streams that were checked before, and with lent places.
ghost use Rattle.std.specs.Prelude.{◌≡◌};
ghost use Rattle.streams.specs.declared.refusal.StreamKind.TheVariants.{Types};
ghost use Rattle.rules.specs.Measure.{function_measure, FunctionMeasureDemand, id_measure, IdMeasureDemand, type_measure, TypeMeasureDemand, function_placed_measure, FunctionPlacedMeasureDemand, id_placed_measure, IdPlacedMeasureDemand, type_placed_measure, TypePlacedMeasureDemand, measure_of, longest, report_of, of_measure};
ghost use Rattle.checked_calls.specs.Checks.{function_over, id_over, type_over};
ghost use Rattle.checked_calls.specs.Kept.{KeptOf, Kept, kept_in};
ghost use Rattle.measures.specs.Measures.{of_measured};

use codeview::index::{IdIndex, TypeIndex};
use measures::answer::Extent;
use measures::{checked, measure_function, measure_id, measure_type, placed};
use streams::refusal::Refusal;

#[tactic(auto, unfolding(measures::specs::Measures::of_measured))]
fn report_measure(
    a: Result<Extent, Refusal>,
    detail: &mut u32,
    length: &mut usize,
    opened: &mut u64,
) -> u32
    ensures { report_of result detail.new length.new opened.new ≡ of_measured a }
{
    match a {
        Ok(e) => {
            *detail = 0;
            *length = e.length;
            *opened = e.opened;
            0
        }
        Err(f) => {
            *detail = f.detail();
            *length = 0;
            *opened = 0;
            f.number()
        }
    }
}

// The measure of a function, by its name and type.
pub fn yokberd_measure_function(
    types: &[u8],
    flags: u32,
    size: u32,
    name: &[u8],
    index: u32,
    detail: &mut u32,
    length: &mut usize,
    opened: &mut u64,
) -> u32
    ensures opened_after { report_of result detail.new length.new opened.new ≡ of_measure (function_measure flags size types.now name.now index) }
    ensures function_measure_demand { FunctionMeasureDemand flags size types.now name.now index }
{
    let a = measure_function(types, flags, size, name, TypeIndex(index));
    report_measure(a, detail, length, opened)
}

// The measure of an id.
pub fn yokberd_measure_id(
    types: &[u8],
    ids: &[u8],
    flags: u32,
    size: u32,
    index: u32,
    detail: &mut u32,
    length: &mut usize,
    opened: &mut u64,
) -> u32
    ensures opened_after { report_of result detail.new length.new opened.new ≡ of_measure (id_measure flags size types.now ids.now index) }
    ensures id_measure_demand { IdMeasureDemand flags size types.now ids.now index }
{
    let a = measure_id(types, ids, flags, size, IdIndex(index));
    report_measure(a, detail, length, opened)
}

// The measure of a type.
pub fn yokberd_measure_type(
    types: &[u8],
    flags: u32,
    size: u32,
    index: u32,
    detail: &mut u32,
    length: &mut usize,
    opened: &mut u64,
) -> u32
    ensures opened_after { report_of result detail.new length.new opened.new ≡ of_measure (type_measure flags size types.now index) }
    ensures type_measure_demand { TypeMeasureDemand flags size types.now index }
{
    let a = measure_type(types, flags, size, TypeIndex(index));
    report_measure(a, detail, length, opened)
}

// The measure of a function, by its name and type, over streams that were checked before.
pub fn yokberd_checked_measure_function(
    types: &[u8],
    checked: &[u32],
    flags: u32,
    size: u32,
    name: &[u8],
    index: u32,
    detail: &mut u32,
    length: &mut usize,
    opened: &mut u64,
) -> u32
    ensures opened_after { report_of result detail.new length.new opened.new ≡ of_measure (measure_of (function_over types.now (kept_in checked.now) flags size name.now index longest)) }
    ensures opened_after_2 { KeptOf Types types.now (kept_in checked.now) → report_of result detail.new length.new opened.new ≡ of_measure (function_measure flags size types.now name.now index) }
{
    let a = checked::measure_function(types, checked, flags, size, name, TypeIndex(index));
    report_measure(a, detail, length, opened)
}

// The measure of an id over streams that were checked before.
pub fn yokberd_checked_measure_id(
    types: &[u8],
    ids: &[u8],
    checked: &[u32],
    flags: u32,
    size: u32,
    index: u32,
    detail: &mut u32,
    length: &mut usize,
    opened: &mut u64,
) -> u32
    ensures opened_after { report_of result detail.new length.new opened.new ≡ of_measure (measure_of (id_over types.now ids.now (kept_in checked.now) flags size index longest)) }
    ensures opened_after_2 { Kept types.now ids.now (kept_in checked.now) → report_of result detail.new length.new opened.new ≡ of_measure (id_measure flags size types.now ids.now index) }
{
    let a = checked::measure_id(types, ids, checked, flags, size, IdIndex(index));
    report_measure(a, detail, length, opened)
}

// The measure of a type over streams that were checked before.
pub fn yokberd_checked_measure_type(
    types: &[u8],
    checked: &[u32],
    flags: u32,
    size: u32,
    index: u32,
    detail: &mut u32,
    length: &mut usize,
    opened: &mut u64,
) -> u32
    ensures opened_after { report_of result detail.new length.new opened.new ≡ of_measure (measure_of (type_over types.now (kept_in checked.now) flags size index longest)) }
    ensures opened_after_2 { KeptOf Types types.now (kept_in checked.now) → report_of result detail.new length.new opened.new ≡ of_measure (type_measure flags size types.now index) }
{
    let a = checked::measure_type(types, checked, flags, size, TypeIndex(index));
    report_measure(a, detail, length, opened)
}

// The measure of a function, by its name and type, with lent places.
pub fn yokberd_placed_measure_function(
    types: &[u8],
    places: &[u32],
    flags: u32,
    size: u32,
    name: &[u8],
    index: u32,
    detail: &mut u32,
    length: &mut usize,
    opened: &mut u64,
) -> u32
    ensures opened_after { report_of result detail.new length.new opened.new ≡ of_measure (function_placed_measure flags size types.now places.now name.now index) }
    ensures function_placed_measure_demand { FunctionPlacedMeasureDemand flags size types.now places.now name.now index }
{
    let a = placed::measure_function(types, places, flags, size, name, TypeIndex(index));
    report_measure(a, detail, length, opened)
}

// The measure of an id, with lent places.
pub fn yokberd_placed_measure_id(
    types: &[u8],
    ids: &[u8],
    places: &[u32],
    flags: u32,
    size: u32,
    index: u32,
    detail: &mut u32,
    length: &mut usize,
    opened: &mut u64,
) -> u32
    ensures opened_after { report_of result detail.new length.new opened.new ≡ of_measure (id_placed_measure flags size types.now ids.now places.now index) }
    ensures id_placed_measure_demand { IdPlacedMeasureDemand flags size types.now ids.now places.now index }
{
    let a = placed::measure_id(types, ids, places, flags, size, IdIndex(index));
    report_measure(a, detail, length, opened)
}

// The measure of a type, with lent places.
pub fn yokberd_placed_measure_type(
    types: &[u8],
    places: &[u32],
    flags: u32,
    size: u32,
    index: u32,
    detail: &mut u32,
    length: &mut usize,
    opened: &mut u64,
) -> u32
    ensures opened_after { report_of result detail.new length.new opened.new ≡ of_measure (type_placed_measure flags size types.now places.now index) }
    ensures type_placed_measure_demand { TypePlacedMeasureDemand flags size types.now places.now index }
{
    let a = placed::measure_type(types, places, flags, size, TypeIndex(index));
    report_measure(a, detail, length, opened)
}
