// Type records: the fields of each kind, and what a type index stands for.
#![tactic(auto, using(crate::proofs::Laws::reads, std::proofs::lemmas::Grind::common_steps), unfolding(wire::specs::Field::field, crate::specs::Record::modifier_of, crate::specs::Record::member_class, crate::specs::Record::containing, crate::specs::Record::pointer_of, crate::specs::Record::procedure_of, crate::specs::Record::member_function_of, crate::specs::Record::argument_list_of, crate::specs::Record::entries, crate::specs::Record::enumerate_of, crate::specs::Record::array_of, crate::specs::Record::class_of, crate::specs::Record::union_of, crate::specs::Record::enumeration_of, crate::specs::Record::bit))]

ghost use Rattle.std.specs.Prelude.{◌≡◌};
ghost use Rattle.codeview.specs.Record.{member_class, modifier_of, pointer_of, procedure_of, member_function_of, argument_list_of, enumerate_of, array_of, class_of, union_of, enumeration_of, type_of};
ghost use Rattle.codeview.specs.Kinds.{NamedKind};
ghost use Rattle.codeview.specs.Read.{primitive_of, read_type_in};
ghost use Rattle.streams.specs.declared.refusal.Refusal.TheVariants.{Malformed};

use crate::fields::{Fields, has_bit, refusal_of};
use crate::index::TypeIndex;
use crate::kinds::*;
use crate::lent::Lent;
use crate::record::{
    ArrayType, ClassKind, ClassType, EnumerateType, EnumerationType, MemberFunctionType,
    ModifierType, PointerMode, PointerType, PrimitiveType, ProcedureType, TypeData, UnionType,
};
use streams::bounds::look_up_in;
use streams::refusal::{Refusal, StreamKind};
use wire::leaf::Leaf;

fn modifier(f: &Fields<'_>) -> Result<TypeData, Refusal>
    ensures { result ≡ modifier_of (Err (Malformed f.now.index)) f.now.base f.now.bytes.now }
{
    f.fixed(6)?;
    let attributes = u32::from(f.number::<u16>(4));
    Ok(TypeData::Modifier(ModifierType {
        underlying: TypeIndex(f.number(0)),
        constant: has_bit(attributes, 0),
        volatile: has_bit(attributes, 1),
        unaligned: has_bit(attributes, 2),
    }))
}

// The containing class of a pointer to a member, in whose record six bytes more are fixed; index 0 for any other.
fn member_class(f: &Fields<'_>, mode: PointerMode) -> Result<u32, Refusal>
    ensures { result ≡ member_class mode f.now.bytes.now Ok (Err (Malformed f.now.index)) }
{
    match mode {
        PointerMode::Member | PointerMode::MemberFunction => {
            f.fixed(14)?;
            Ok(f.number(8))
        }
        _ => Ok(0),
    }
}

fn pointer(f: &Fields<'_>) -> Result<TypeData, Refusal>
    ensures { result ≡ pointer_of (Err (Malformed f.now.index)) f.now.base f.now.bytes.now }
{
    f.fixed(8)?;
    let attributes: u32 = f.number(4);
    let mode = PointerMode::try_from(attributes >> 5 & 7).or(Err(f.malformed()))?;
    Ok(TypeData::Pointer(PointerType {
        underlying: TypeIndex(f.number(0)),
        constant: has_bit(attributes, 10),
        volatile: has_bit(attributes, 9),
        mode,
        size: attributes >> 13 & 63,
        class: TypeIndex(member_class(f, mode)?),
    }))
}

fn procedure(f: &Fields<'_>) -> Result<TypeData, Refusal>
    ensures { result ≡ procedure_of (Err (Malformed f.now.index)) f.now.base f.now.bytes.now }
{
    f.fixed(12)?;
    Ok(TypeData::Procedure(ProcedureType {
        result: TypeIndex(f.number(0)),
        constructor: has_bit(u32::from(f.number::<u16>(4)), 9),
        parameters: f.number(6),
        arguments: TypeIndex(f.number(8)),
    }))
}

fn member_function(f: &Fields<'_>) -> Result<TypeData, Refusal>
    ensures { result ≡ member_function_of (Err (Malformed f.now.index)) f.now.base f.now.bytes.now }
{
    f.fixed(24)?;
    Ok(TypeData::MemberFunction(MemberFunctionType {
        result: TypeIndex(f.number(0)),
        class: TypeIndex(f.number(4)),
        this: TypeIndex(f.number(8)),
        constructor: has_bit(u32::from(f.number::<u16>(12)), 9),
        parameters: f.number(14),
        arguments: TypeIndex(f.number(16)),
        adjustment: f.number(20),
    }))
}

fn argument_list(f: &Fields<'_>) -> Result<TypeData, Refusal>
    ensures { result ≡ argument_list_of (Err (Malformed f.now.index)) f.now.base f.now.bytes.now }
{
    Ok(TypeData::ArgumentList(f.entries()?))
}

#[inline(always)]
fn enumerate(f: &Fields<'_>) -> Result<TypeData, Refusal>
    ensures { result ≡ enumerate_of (Err (Malformed f.now.index)) f.now.base f.now.bytes.now }
{
    f.fixed(2)?;
    let Leaf { value, width, next } = f.leaf_at(2, true)?;
    Ok(TypeData::Enumerate(EnumerateType {
        attributes: f.number(0),
        value,
        width,
        name: f.name_at(next)?,
    }))
}

#[inline(always)]
fn array(f: &Fields<'_>) -> Result<TypeData, Refusal>
    ensures { result ≡ array_of (Err (Malformed f.now.index)) f.now.base f.now.bytes.now }
{
    f.fixed(8)?;
    let size = f.leaf_at(8, false)?;
    let name = f.name_at(size.next)?;
    if u64::from(u32::MAX) < size.value {
        return Err(f.malformed());
    }
    Ok(TypeData::Array(ArrayType {
        element: TypeIndex(f.number(0)),
        indexing: TypeIndex(f.number(4)),
        size: size.value,
        name,
    }))
}

#[inline(always)]
pub fn class(f: &Fields<'_>, kind: ClassKind) -> Result<TypeData, Refusal>
    ensures { result ≡ class_of (Err (Malformed f.now.index)) f.now.base kind f.now.bytes.now }
{
    f.fixed(16)?;
    let properties: u16 = f.number(2);
    let size = f.leaf_at(16, false)?;
    let (name, unique) = f.names_at(size.next, properties)?;
    Ok(TypeData::Class(ClassType {
        kind,
        count: f.number(0),
        forward: has_bit(u32::from(properties), 7),
        fields: TypeIndex(f.number(4)),
        derived: TypeIndex(f.number(8)),
        shape: TypeIndex(f.number(12)),
        size: size.value,
        name,
        unique,
    }))
}

#[inline(always)]
pub fn union_type(f: &Fields<'_>) -> Result<TypeData, Refusal>
    ensures { result ≡ union_of (Err (Malformed f.now.index)) f.now.base f.now.bytes.now }
{
    f.fixed(8)?;
    let properties: u16 = f.number(2);
    let size = f.leaf_at(8, false)?;
    let (name, unique) = f.names_at(size.next, properties)?;
    Ok(TypeData::Union(UnionType {
        count: f.number(0),
        forward: has_bit(u32::from(properties), 7),
        fields: TypeIndex(f.number(4)),
        size: size.value,
        name,
        unique,
    }))
}

#[inline(always)]
fn enumeration(f: &Fields<'_>) -> Result<TypeData, Refusal>
    ensures { result ≡ enumeration_of (Err (Malformed f.now.index)) f.now.base f.now.bytes.now }
{
    f.fixed(12)?;
    let properties: u16 = f.number(2);
    let (name, unique) = f.names_at(12, properties)?;
    Ok(TypeData::Enumeration(EnumerationType {
        count: f.number(0),
        forward: has_bit(u32::from(properties), 7),
        underlying: TypeIndex(f.number(4)),
        fields: TypeIndex(f.number(8)),
        name,
        unique,
    }))
}

// A record of the type stream of a kind with a name, or whose fields are not read. Each decoder stands in place here: one that is called makes its answer
// apart, and it is copied.
#[tactic(auto, unfolding(crate::specs::Record::type_of))]
fn decode_named(f: &Fields<'_>, kind: u16) -> Result<TypeData, Refusal>
    requires { NamedKind kind }
    ensures { result ≡ type_of (Err (Malformed f.now.index)) f.now.base kind f.now.bytes.now }
{
    match kind {
        LF_ENUMERATE => return enumerate(f),
        LF_ARRAY => return array(f),
        LF_CLASS => return class(f, ClassKind::Class),
        LF_STRUCTURE => return class(f, ClassKind::Struct),
        LF_INTERFACE => return class(f, ClassKind::Interface),
        LF_UNION => return union_type(f),
        LF_ENUM => return enumeration(f),
        LF_FIELDLIST | LF_BITFIELD | LF_METHODLIST => return Ok(TypeData::Unhandled(kind)),
        _ => return Err(Refusal::UnlistedKind(u32::from(kind))),
    }
}

// An index below 0x1000: that of a primitive, or of nothing.
#[tactic(auto, using(crate::proofs::Laws::by_listed))]
fn primitive(index: u32) -> Result<TypeData, Refusal>
    ensures { result ≡ primitive_of index }
{
    let indirection = index / 256;
    let code = (index % 256) as u8;
    if 7 < indirection {
        return Err(Refusal::Missing(index));
    }
    if !primitives::is_listed(code) {
        return Err(Refusal::Missing(index));
    }
    Ok(TypeData::Primitive(PrimitiveType { indirection, code }))
}

impl<'a> Lent<'a> {
    // What a type index stands for. The kinds that are met most are matched here, and each arm returns: an answer that arms hand on together is made in a
    // place of its own and copied.
    #[tactic(auto, using(crate::proofs::Laws::by_type, crate::proofs::Laws::look_inside), unfolding(crate::specs::Record::type_of))]
    pub fn type_at(&self, index: TypeIndex) -> Result<TypeData, Refusal>
        ensures { result ≡ read_type_in self.now.types.now self.now.bounds.now self.now.places.now index.0 }
    {
        let i = index.0;
        if i < 0x1000 {
            return primitive(i);
        }
        let record = look_up_in(self.types, self.bounds, self.places, StreamKind::Types, i).map_err(
            |a| refusal_of(a, i),
        )?;
        let f = &Fields::of(self.types, record, i);
        match record.kind {
            LF_POINTER => return pointer(f),
            LF_MODIFIER => return modifier(f),
            LF_PROCEDURE => return procedure(f),
            LF_MFUNCTION => return member_function(f),
            LF_ARGLIST => return argument_list(f),
            kind => return decode_named(f, kind),
        }
    }
}

// What a type index stands for in a checked stream, found from its places.
pub fn type_at(
    s: &[u8],
    bounds: &[u32],
    places: &[u32],
    index: TypeIndex,
) -> Result<TypeData, Refusal>
    ensures { result ≡ read_type_in s.now bounds.now places.now index.0 }
{
    let lent = Lent {
        types: s,
        ids: &[],
        bounds,
        places,
    };
    lent.type_at(index)
}
