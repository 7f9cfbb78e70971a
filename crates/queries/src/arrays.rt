// The levels of an array: the byte size of each, and what the innermost holds.
ghost use Rattle.std.specs.Prelude.{◌≡◌};
ghost use Rattle.rules.specs.Places.{near_in};
ghost use Rattle.queries.specs.Arrays.{Info};
ghost use Rattle.queries.specs.declared.arrays.ArrayStop.TheVariants.{Refused};

use codeview::index::TypeIndex;
use codeview::lent::Lent;
use codeview::record::TypeData;
use context::levels::Dimensions;
use streams::refusal::Refusal;

// Why the levels of an array have no base: there is a 33rd at an index, or a record could not be read.
#[derive(Clone, Copy, Debug, PartialEq, Eq)]
pub enum ArrayStop {
    TooLong(TypeIndex),
    Refused(Refusal),
}

impl From<Refusal> for ArrayStop {
    ghost from_gives = { λ f stop. stop ≡ Refused f };

    fn from(f: Refusal) -> ArrayStop {
        ArrayStop::Refused(f)
    }
}

// The byte sizes of the levels, the index behind the last of them, and what that is or why there is no base: where they stop the levels stand too.
#[derive(Clone, Copy)]
pub struct ArrayInfo {
    pub sizes: Dimensions,
    pub base: TypeIndex,
    pub holds: Result<TypeData, ArrayStop>,
}

// One loop and no recursion, so that the stack stays small.
pub fn get_array_info(lent: &Lent, element: TypeIndex, size: u64) -> ArrayInfo
    ensures { Info lent.now.types.now (near_in lent.now) element.0 size result }
{
    // Kept: a stack of fixed memory with the place of its newest, since nothing may be allocated.
    let mut items: [u64; 32] = [0; 32];
    let mut left: usize = 31;
    items[31] = size;
    let mut base = element;
    loop {
        let t = match lent.type_at(base) {
            Ok(t) => t,
            Err(f) => {
                return ArrayInfo {
                    sizes: Dimensions { items, left },
                    base,
                    holds: Err(ArrayStop::from(f)),
                };
            }
        };
        let TypeData::Array(a) = t else {
            return ArrayInfo {
                sizes: Dimensions { items, left },
                base,
                holds: Ok(t),
            };
        };
        if left == 0 {
            return ArrayInfo {
                sizes: Dimensions { items, left },
                base,
                holds: Err(ArrayStop::TooLong(base)),
            };
        }
        left -= 1;
        items[left] = a.size;
        base = a.element;
    }
}
