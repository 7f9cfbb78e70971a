// The three measures over what is kept of the stream checks: the walks of the text calls, with a limit of their own and no buffer. They take any numbers and any
// places.
ghost use Rattle.std.specs.Prelude.{◌≡◌};
ghost use Rattle.rules.specs.Call.{within};
ghost use Rattle.rules.specs.Measure.{measure_of, longest, of_measure};
ghost use Rattle.rules.specs.Places.{near_in};
ghost use Rattle.checked_calls.specs.Checks.{function_over, id_over, type_over, unplaced};
ghost use Rattle.measures.specs.Measures.{of_measured};

use crate::answer::{Extent, measure_of};
use checked_calls::calls::{walk_function, walk_id, walk_type};
use codeview::index::{IdIndex, TypeIndex};
use codeview::lent::Lent;
use context::flags::Call;
use streams::refusal::Refusal;

// No text that is measured is longer.
pub const LONGEST: usize = 16_777_215;

// The measure of a function, by its name and type.
pub fn function_over(
    lent: &Lent,
    flags: u32,
    size: u32,
    name: &[u8],
    index: TypeIndex,
) -> Result<Extent, Refusal>
    ensures { of_measured result ≡ of_measure (measure_of (function_over lent.now.types.now (near_in lent.now) flags size name.now index.0 longest)) }
{
    let mut none = [0u8; 0];
    let p = walk_function(lent, &mut none, LONGEST, flags, size, name, index);
    measure_of(p)
}

// The measure of an id.
pub fn id_over(lent: &Lent, flags: u32, size: u32, index: IdIndex) -> Result<Extent, Refusal>
    ensures { of_measured result ≡ of_measure (measure_of (id_over lent.now.types.now lent.now.ids.now (near_in lent.now) flags size index.0 longest)) }
{
    let mut none = [0u8; 0];
    let p = walk_id(lent, &mut none, LONGEST, flags, size, index);
    measure_of(p)
}

// The measure of a type.
pub fn type_over(lent: &Lent, flags: u32, size: u32, index: TypeIndex) -> Result<Extent, Refusal>
    ensures { of_measured result ≡ of_measure (measure_of (type_over lent.now.types.now (near_in lent.now) flags size index.0 longest)) }
{
    let mut none = [0u8; 0];
    let p = walk_type(lent, &mut none, LONGEST, flags, size, index);
    measure_of(p)
}

// A measure with a wrong place: 17, where its checks are good.
pub fn refuse_place(checked: Result<Call, Refusal>, entry: u32) -> Result<Extent, Refusal>
    ensures { of_measured result ≡ of_measure (measure_of (within longest (unplaced checked entry))) }
{
    match checked {
        Ok(_) => Err(Refusal::WrongPlace(entry)),
        Err(f) => Err(f),
    }
}
