// Numeric leaves: a number that says its own width.
ghost use Rattle.std.specs.Prelude.{◌≡◌, ◌+◌, ◌<◌, ◌≤◌, length};
ghost use Rattle.wire.specs.Leaf.{size_width, value_width, width_of, payload_answer, leaf_answer};

use crate::field::{Little, field_at};

// What is read at a leaf: the number, the width of its value and the place behind it.
#[derive(Clone, Copy, Debug, PartialEq, Eq)]
pub struct Leaf {
    pub value: u64,
    pub width: usize,
    pub next: usize,
}

// The number of its width after a lead.
#[tactic(auto, using(crate::proofs::Laws::payload_pick), unfolding(crate::specs::Field::field))]
fn number<T: Little>(s: &[u8], at: usize) -> Option<Leaf>
    ensures { result ≡ payload_answer T.WIDTH s.now at }
{
    let n = field_at::<T>(s, at)?;
    Some(Leaf {
        value: n.into(),
        width: T::WIDTH,
        next: at + T::WIDTH,
    })
}

// The number behind a lead of 0x8000 or more that a size may have.
#[tactic(auto, unfolding(crate::specs::Leaf::size_width, crate::specs::Leaf::payload))]
fn size_number(s: &[u8], at: usize, lead: u16) -> Option<Leaf>
    ensures { result ≡ payload_answer (size_width lead) s.now at }
{
    match lead {
        0x8002 => number::<u16>(s, at),
        0x8004 => number::<u32>(s, at),
        0x800A => number::<u64>(s, at),
        _ => None,
    }
}

// The same for the value of an enumerate, which may be signed.
#[tactic(auto, unfolding(crate::specs::Leaf::value_width))]
fn value_number(s: &[u8], at: usize, lead: u16) -> Option<Leaf>
    ensures { result ≡ payload_answer (value_width lead) s.now at }
{
    match lead {
        0x8000 => number::<u8>(s, at),
        0x8001 => number::<u16>(s, at),
        0x8003 => number::<u32>(s, at),
        0x8009 => number::<u64>(s, at),
        _ => size_number(s, at, lead),
    }
}

// The numeric leaf at a place: a size, or where `signed` says so the value of an enumerate, whose bits stand for a signed number.
#[tactic(auto, unfolding(crate::specs::Field::field, crate::specs::Leaf::leaf, crate::specs::Leaf::width_of))]
#[inline(always)]
pub fn leaf_at(s: &[u8], at: usize, signed: bool) -> Option<Leaf>
    ensures { result ≡ leaf_answer (width_of signed) s.now at }
{
    let lead = field_at::<u16>(s, at)?;
    let next = at + 2;
    if lead < 0x8000 {
        return Some(Leaf {
            value: u64::from(lead),
            width: 2,
            next,
        });
    }
    if signed {
        return value_number(s, next, lead);
    }
    size_number(s, next, lead)
}
