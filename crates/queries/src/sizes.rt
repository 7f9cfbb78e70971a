// The sizes of types: one record after another of a chain, at most 32, and the size of a forward reference.
ghost use Rattle.std.specs.Prelude.{◌≡◌, eqb};
ghost use Rattle.wire.specs.Field.{pick};
ghost use Rattle.rules.specs.Places.{near_in};
ghost use Rattle.rules.specs.Text.{primitive_size};
ghost use Rattle.rules.specs.Record.{match_name};
ghost use Rattle.context.specs.declared.flags.Call.{Call};
ghost use Rattle.queries.specs.Sizes.{Sizes, LayoutSize};

use crate::scan::{Layout, get_size_for_forward_reference, match_name};
use codeview::index::TypeIndex;
use codeview::lent::Lent;
use codeview::record::{PrimitiveType, TypeData};
use context::flags::Call;

// The index of the record that is one too many of a chain.
#[derive(Clone, Copy, Debug, PartialEq, Eq)]
pub struct TooLong(pub u32);

#[tactic(auto, unfolding(rules::specs::Text::primitive_size))]
fn get_primitive_size(call: Call, p: PrimitiveType) -> u64
    ensures { result ≡ pick (eqb p.indirection 0) (primitive_size p.code) call.size }
{
    if p.indirection == 0 {
        return u64::from(primitives::primitive_size(p.code));
    }
    u64::from(call.size)
}

// A forward reference has the size of the full record, any other class or union its own.
#[tactic(auto, unfolding(rules::specs::Sizes::layout_size, rules::specs::Places::table_in, rules::specs::Places::table_by))]
fn get_layout_size(lent: &Lent, index: TypeIndex, l: Layout) -> u64
    ensures { (call : Call) → LayoutSize lent.now.types.now (near_in lent.now) call index.0 l.forward l.size (match_name lent.now.types.now l.name l.unique) result }
{
    if l.forward {
        return get_size_for_forward_reference(
            lent,
            index,
            match_name(lent.types, l.name, l.unique),
            l.size,
        );
    }
    l.size
}

// The size of a type that comes after `n` records of a chain. What cannot be read has the size 0; a primitive does not count.
pub fn get_type_size(lent: &Lent, call: Call, index: TypeIndex, n: u32) -> Result<u64, TooLong>
    ensures { Sizes lent.now.types.now (near_in lent.now) call index.0 n result }
{
    let Ok(t) = lent.type_at(index) else {
        return Ok(0);
    };
    match t {
        TypeData::Primitive(p) => Ok(get_primitive_size(call, p)),
        _ if 32 <= n => Err(TooLong(index.0)),
        TypeData::Modifier(m) => get_type_size(lent, call, m.underlying, n + 1),
        TypeData::Enumeration(e) => get_type_size(lent, call, e.underlying, n + 1),
        TypeData::Pointer(p) => Ok(u64::from(p.size)),
        TypeData::Procedure(_) | TypeData::MemberFunction(_) => Ok(u64::from(call.size)),
        TypeData::ArgumentList(_) | TypeData::Unhandled(_) => Ok(0),
        TypeData::Enumerate(e) => Ok(e.width as u64),
        TypeData::Array(a) => Ok(a.size),
        TypeData::Class(c) => Ok(get_layout_size(lent, index, Layout::from(c))),
        TypeData::Union(u) => Ok(get_layout_size(lent, index, Layout::from(u))),
    }
}
