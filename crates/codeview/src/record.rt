// The records of the two streams, decoded. Names and lists stand as places of the stream.
ghost use Rattle.std.specs.Prelude.{◌≡◌};
ghost use Rattle.codeview.specs.Record.{mode_answer};

use crate::index::{IdIndex, TypeIndex};
use streams::refusal::Refusal;
use wire::name::Name;

// A run of u32: where it starts and how many there are.
#[derive(Clone, Copy, Debug, PartialEq, Eq)]
pub struct Entries {
    pub count: u32,
    pub start: usize,
}

#[derive(Clone, Copy, Debug, PartialEq, Eq)]
pub enum PointerMode {
    Pointer,
    LValueReference,
    Member,
    MemberFunction,
    RValueReference,
}

// A number that no mode of a pointer has.
#[derive(Clone, Copy, Debug, PartialEq, Eq)]
pub struct UnlistedMode;

impl TryFrom<u32> for PointerMode {
    type Error = UnlistedMode;

    ghost try_from_gives = { λ mode result. result ≡ mode_answer mode };

    #[tactic(auto, unfolding(crate::specs::Record::pointer_mode))]
    fn try_from(mode: u32) -> Result<PointerMode, UnlistedMode> {
        match mode {
            0 => Ok(PointerMode::Pointer),
            1 => Ok(PointerMode::LValueReference),
            2 => Ok(PointerMode::Member),
            3 => Ok(PointerMode::MemberFunction),
            4 => Ok(PointerMode::RValueReference),
            _ => Err(UnlistedMode),
        }
    }
}

#[derive(Clone, Copy, Debug, PartialEq, Eq)]
pub enum ClassKind {
    Class,
    Struct,
    Interface,
}

// A primitive: the code of its kind, and how many times it is pointed to (0 to 7).
#[derive(Clone, Copy, Debug, PartialEq, Eq)]
pub struct PrimitiveType {
    pub indirection: u32,
    pub code: u8,
}

#[derive(Clone, Copy, Debug, PartialEq, Eq)]
pub struct ModifierType {
    pub underlying: TypeIndex,
    pub constant: bool,
    pub volatile: bool,
    pub unaligned: bool,
}

// `class` is the containing class of a pointer to a member, and index 0 for any other.
#[derive(Clone, Copy, Debug, PartialEq, Eq)]
pub struct PointerType {
    pub underlying: TypeIndex,
    pub constant: bool,
    pub volatile: bool,
    pub mode: PointerMode,
    pub size: u32,
    pub class: TypeIndex,
}

#[derive(Clone, Copy, Debug, PartialEq, Eq)]
pub struct ProcedureType {
    pub result: TypeIndex,
    pub constructor: bool,
    pub parameters: u16,
    pub arguments: TypeIndex,
}

#[derive(Clone, Copy, Debug, PartialEq, Eq)]
pub struct MemberFunctionType {
    pub result: TypeIndex,
    pub constructor: bool,
    pub parameters: u16,
    pub arguments: TypeIndex,
    pub class: TypeIndex,
    pub this: TypeIndex,
    pub adjustment: u32,
}

// The value stands as its bits, in `width` bytes.
#[derive(Clone, Copy, Debug, PartialEq, Eq)]
pub struct EnumerateType {
    pub attributes: u16,
    pub value: u64,
    pub width: usize,
    pub name: Name,
}

#[derive(Clone, Copy, Debug, PartialEq, Eq)]
pub struct ArrayType {
    pub element: TypeIndex,
    pub indexing: TypeIndex,
    pub size: u64,
    pub name: Name,
}

#[derive(Clone, Copy, Debug, PartialEq, Eq)]
pub struct ClassType {
    pub kind: ClassKind,
    pub forward: bool,
    pub count: u16,
    pub fields: TypeIndex,
    pub derived: TypeIndex,
    pub shape: TypeIndex,
    pub size: u64,
    pub name: Name,
    pub unique: Option<Name>,
}

#[derive(Clone, Copy, Debug, PartialEq, Eq)]
pub struct UnionType {
    pub forward: bool,
    pub count: u16,
    pub fields: TypeIndex,
    pub size: u64,
    pub name: Name,
    pub unique: Option<Name>,
}

#[derive(Clone, Copy, Debug, PartialEq, Eq)]
pub struct EnumerationType {
    pub forward: bool,
    pub count: u16,
    pub underlying: TypeIndex,
    pub fields: TypeIndex,
    pub name: Name,
    pub unique: Option<Name>,
}

#[derive(Clone, Copy, Debug, PartialEq, Eq)]
pub enum TypeData {
    Primitive(PrimitiveType),
    Modifier(ModifierType),
    Pointer(PointerType),
    Procedure(ProcedureType),
    MemberFunction(MemberFunctionType),
    ArgumentList(Entries),
    Enumerate(EnumerateType),
    Array(ArrayType),
    Class(ClassType),
    Union(UnionType),
    Enumeration(EnumerationType),
    Unhandled(u16),
}

#[derive(Clone, Copy, Debug, PartialEq, Eq)]
pub struct FunctionId {
    pub scope: IdIndex,
    pub function: TypeIndex,
    pub name: Name,
}

#[derive(Clone, Copy, Debug, PartialEq, Eq)]
pub struct MemberFunctionId {
    pub parent: TypeIndex,
    pub function: TypeIndex,
    pub name: Name,
}

// `list` is the id of a list of strings that stand before this one.
#[derive(Clone, Copy, Debug, PartialEq, Eq)]
pub struct StringId {
    pub list: IdIndex,
    pub name: Name,
}

#[derive(Clone, Copy, Debug, PartialEq, Eq)]
pub enum IdData {
    Function(FunctionId),
    MemberFunction(MemberFunctionId),
    StringList(Entries),
    String(StringId),
    Unhandled(u16),
}
