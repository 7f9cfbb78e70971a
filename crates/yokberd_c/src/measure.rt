// The measures.
ghost use Rattle.std.specs.Prelude.{◌≡◌};
ghost use Rattle.streams.specs.declared.refusal.StreamKind.TheVariants.{Types};
ghost use Rattle.rules.specs.Measure.{function_measure, FunctionMeasureDemand, id_measure, IdMeasureDemand, type_measure, TypeMeasureDemand, function_placed_measure, FunctionPlacedMeasureDemand, id_placed_measure, IdPlacedMeasureDemand, type_placed_measure, TypePlacedMeasureDemand, measure_of, longest, report_of, of_measure};
ghost use Rattle.checked_calls.specs.Checks.{function_over, id_over, type_over};
ghost use Rattle.checked_calls.specs.Kept.{KeptOf, Kept, kept_in};

// The measure of a function, by its name and type.
#[unsafe(no_mangle)]
pub extern "C" fn yokberd_measure_function(
    types: &[u8],
    flags: u32,
    size: u32,
    name: &[u8],
    index: u32,
    detail: &mut u32,
    length: &mut usize,
    opened: &mut u64,
) -> u32
    ensures opened_after { report_of result detail.new length.new opened.new ≡ of_measure (function_measure flags size types.now name.now index) }
    ensures function_measure_demand { FunctionMeasureDemand flags size types.now name.now index }
{
    yokberd::measure::yokberd_measure_function(
        types, flags, size, name, index, detail, length, opened,
    )
}

// The measure of an id.
#[unsafe(no_mangle)]
pub extern "C" fn yokberd_measure_id(
    types: &[u8],
    ids: &[u8],
    flags: u32,
    size: u32,
    index: u32,
    detail: &mut u32,
    length: &mut usize,
    opened: &mut u64,
) -> u32
    ensures opened_after { report_of result detail.new length.new opened.new ≡ of_measure (id_measure flags size types.now ids.now index) }
    ensures id_measure_demand { IdMeasureDemand flags size types.now ids.now index }
{
    yokberd::measure::yokberd_measure_id(types, ids, flags, size, index, detail, length, opened)
}

// The measure of a type.
#[unsafe(no_mangle)]
pub extern "C" fn yokberd_measure_type(
    types: &[u8],
    flags: u32,
    size: u32,
    index: u32,
    detail: &mut u32,
    length: &mut usize,
    opened: &mut u64,
) -> u32
    ensures opened_after { report_of result detail.new length.new opened.new ≡ of_measure (type_measure flags size types.now index) }
    ensures type_measure_demand { TypeMeasureDemand flags size types.now index }
{
    yokberd::measure::yokberd_measure_type(types, flags, size, index, detail, length, opened)
}

// The measure of a function, by its name and type, over streams that were checked before.
#[unsafe(no_mangle)]
pub extern "C" fn yokberd_checked_measure_function(
    types: &[u8],
    checked: &[u32],
    flags: u32,
    size: u32,
    name: &[u8],
    index: u32,
    detail: &mut u32,
    length: &mut usize,
    opened: &mut u64,
) -> u32
    ensures opened_after { report_of result detail.new length.new opened.new ≡ of_measure (measure_of (function_over types.now (kept_in checked.now) flags size name.now index longest)) }
    ensures opened_after_2 { KeptOf Types types.now (kept_in checked.now) → report_of result detail.new length.new opened.new ≡ of_measure (function_measure flags size types.now name.now index) }
{
    yokberd::measure::yokberd_checked_measure_function(
        types, checked, flags, size, name, index, detail, length, opened,
    )
}

// The measure of an id over streams that were checked before.
#[unsafe(no_mangle)]
pub extern "C" fn yokberd_checked_measure_id(
    types: &[u8],
    ids: &[u8],
    checked: &[u32],
    flags: u32,
    size: u32,
    index: u32,
    detail: &mut u32,
    length: &mut usize,
    opened: &mut u64,
) -> u32
    ensures opened_after { report_of result detail.new length.new opened.new ≡ of_measure (measure_of (id_over types.now ids.now (kept_in checked.now) flags size index longest)) }
    ensures opened_after_2 { Kept types.now ids.now (kept_in checked.now) → report_of result detail.new length.new opened.new ≡ of_measure (id_measure flags size types.now ids.now index) }
{
    yokberd::measure::yokberd_checked_measure_id(
        types, ids, checked, flags, size, index, detail, length, opened,
    )
}

// The measure of a type over streams that were checked before.
#[unsafe(no_mangle)]
pub extern "C" fn yokberd_checked_measure_type(
    types: &[u8],
    checked: &[u32],
    flags: u32,
    size: u32,
    index: u32,
    detail: &mut u32,
    length: &mut usize,
    opened: &mut u64,
) -> u32
    ensures opened_after { report_of result detail.new length.new opened.new ≡ of_measure (measure_of (type_over types.now (kept_in checked.now) flags size index longest)) }
    ensures opened_after_2 { KeptOf Types types.now (kept_in checked.now) → report_of result detail.new length.new opened.new ≡ of_measure (type_measure flags size types.now index) }
{
    yokberd::measure::yokberd_checked_measure_type(
        types, checked, flags, size, index, detail, length, opened,
    )
}

// The measure of a function, by its name and type, with lent places.
#[unsafe(no_mangle)]
pub extern "C" fn yokberd_placed_measure_function(
    types: &[u8],
    places: &[u32],
    flags: u32,
    size: u32,
    name: &[u8],
    index: u32,
    detail: &mut u32,
    length: &mut usize,
    opened: &mut u64,
) -> u32
    ensures opened_after { report_of result detail.new length.new opened.new ≡ of_measure (function_placed_measure flags size types.now places.now name.now index) }
    ensures function_placed_measure_demand { FunctionPlacedMeasureDemand flags size types.now places.now name.now index }
{
    yokberd::measure::yokberd_placed_measure_function(
        types, places, flags, size, name, index, detail, length, opened,
    )
}

// The measure of an id, with lent places.
#[unsafe(no_mangle)]
pub extern "C" fn yokberd_placed_measure_id(
    types: &[u8],
    ids: &[u8],
    places: &[u32],
    flags: u32,
    size: u32,
    index: u32,
    detail: &mut u32,
    length: &mut usize,
    opened: &mut u64,
) -> u32
    ensures opened_after { report_of result detail.new length.new opened.new ≡ of_measure (id_placed_measure flags size types.now ids.now places.now index) }
    ensures id_placed_measure_demand { IdPlacedMeasureDemand flags size types.now ids.now places.now index }
{
    yokberd::measure::yokberd_placed_measure_id(
        types, ids, places, flags, size, index, detail, length, opened,
    )
}

// The measure of a type, with lent places.
#[unsafe(no_mangle)]
pub extern "C" fn yokberd_placed_measure_type(
    types: &[u8],
    places: &[u32],
    flags: u32,
    size: u32,
    index: u32,
    detail: &mut u32,
    length: &mut usize,
    opened: &mut u64,
) -> u32
    ensures opened_after { report_of result detail.new length.new opened.new ≡ of_measure (type_placed_measure flags size types.now places.now index) }
    ensures type_placed_measure_demand { TypePlacedMeasureDemand flags size types.now places.now index }
{
    yokberd::measure::yokberd_placed_measure_type(
        types, places, flags, size, index, detail, length, opened,
    )
}
