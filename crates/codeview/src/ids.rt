// Id records: the fields of each kind, and what an id index stands for.
#![tactic(auto, using(crate::proofs::Laws::reads), unfolding(wire::specs::Field::field, crate::specs::IdRecord::function_parts, crate::specs::IdRecord::function_id_of, crate::specs::IdRecord::member_function_id_of, crate::specs::IdRecord::string_list_of, crate::specs::IdRecord::string_of, crate::specs::Record::entries))]

ghost use Rattle.std.specs.Prelude.{◌≡◌};
ghost use Rattle.codeview.specs.IdRecord.{function_parts, function_id_of, member_function_id_of, string_list_of, string_of, id_data_of};
ghost use Rattle.codeview.specs.Read.{read_id_in};
ghost use Rattle.streams.specs.declared.refusal.Refusal.TheVariants.{Malformed};

use crate::fields::{Fields, refusal_of};
use crate::index::{IdIndex, TypeIndex};
use crate::kinds::*;
use crate::record::{FunctionId, IdData, MemberFunctionId, StringId};
use streams::bounds::look_up_in;
use streams::refusal::{Refusal, StreamKind};
use wire::name::Name;

// What the ids of functions and of member functions say in the same places: whose function it is, the function's type, and its name.
fn function_parts(f: &Fields<'_>) -> Result<(u32, u32, Name), Refusal>
    ensures { result ≡ function_parts f.now.base f.now.bytes.now (λ owner function n. Ok (owner, function, n)) (Err (Malformed f.now.index)) }
{
    f.fixed(8)?;
    Ok((f.number(0), f.number(4), f.name_at(8)?))
}

fn function_id(f: &Fields<'_>) -> Result<IdData, Refusal>
    ensures { result ≡ function_id_of (Err (Malformed f.now.index)) f.now.base f.now.bytes.now }
{
    let (owner, function, name) = function_parts(f)?;
    Ok(IdData::Function(FunctionId {
        scope: IdIndex(owner),
        function: TypeIndex(function),
        name,
    }))
}

fn member_function_id(f: &Fields<'_>) -> Result<IdData, Refusal>
    ensures { result ≡ member_function_id_of (Err (Malformed f.now.index)) f.now.base f.now.bytes.now }
{
    let (owner, function, name) = function_parts(f)?;
    Ok(IdData::MemberFunction(MemberFunctionId {
        parent: TypeIndex(owner),
        function: TypeIndex(function),
        name,
    }))
}

fn string_list(f: &Fields<'_>) -> Result<IdData, Refusal>
    ensures { result ≡ string_list_of (Err (Malformed f.now.index)) f.now.base f.now.bytes.now }
{
    Ok(IdData::StringList(f.entries()?))
}

fn string_id(f: &Fields<'_>) -> Result<IdData, Refusal>
    ensures { result ≡ string_of (Err (Malformed f.now.index)) f.now.base f.now.bytes.now }
{
    f.fixed(4)?;
    Ok(IdData::String(StringId {
        list: IdIndex(f.number(0)),
        name: f.name_at(4)?,
    }))
}

// A record of the id stream, by its kind.
#[tactic(auto, unfolding(crate::specs::IdRecord::id_data_of))]
fn decode_id(f: &Fields<'_>, kind: u16) -> Result<IdData, Refusal>
    ensures { result ≡ id_data_of (Err (Malformed f.now.index)) f.now.base kind f.now.bytes.now }
{
    match kind {
        LF_FUNC_ID => function_id(f),
        LF_MFUNC_ID => member_function_id(f),
        LF_SUBSTR_LIST => string_list(f),
        LF_STRING_ID => string_id(f),
        LF_BUILDINFO | LF_UDT_SRC_LINE | LF_UDT_MOD_SRC_LINE => Ok(IdData::Unhandled(kind)),
        _ => Err(Refusal::UnlistedKind(u32::from(kind))),
    }
}

// What an id index stands for in a checked stream, found from its places.
#[tactic(auto, using(crate::proofs::Laws::by_look, crate::proofs::Laws::look_inside), unfolding(crate::specs::Read::id_from))]
pub fn id_at(s: &[u8], bounds: &[u32], places: &[u32], index: IdIndex) -> Result<IdData, Refusal>
    ensures { result ≡ read_id_in s.now bounds.now places.now index.0 }
{
    let i = index.0;
    let record = look_up_in(s, bounds, places, StreamKind::Ids, i).map_err(|a| refusal_of(a, i))?;
    decode_id(&Fields::of(s, record, i), record.kind)
}
