// The size of a forward reference: that of the first full record after it with its name. One pass over the heads of the records, from place to place.
ghost use Rattle.std.specs.Prelude.{◌≡◌, ◌+◌, ◌≤◌, ◌<◌, min, max, Err};
ghost use Rattle.streams.specs.Places.{serves_until};
ghost use Rattle.rules.specs.Record.{match_name};
ghost use Rattle.rules.specs.Places.{near_in};
ghost use Rattle.streams.specs.declared.refusal.Refusal.TheVariants.{Malformed};
ghost use Rattle.codeview.specs.Record.{type_of};
ghost use Rattle.codeview.specs.Read.{type_in};
ghost use Rattle.queries.specs.Sizes.{FullLayout, FullOf, FullSize, FullBetween, layout_kind, passed_over};

use codeview::fields::{Fields, has_bit};
use codeview::index::TypeIndex;
use codeview::kinds::{LF_CLASS, LF_INTERFACE, LF_STRUCTURE, LF_UNION};
use codeview::lent::Lent;
use codeview::record::{ClassKind, ClassType, TypeData, UnionType};
use codeview::types::{class, union_type};
use leaf_writers::names::name_of;
use streams::bounds::{spacing_in, stream_in};
use streams::places::{Spacing, serves_until, start_of};
use streams::refusal::{Refusal, StreamKind};
use streams::stream::{Cursor, Stream, next_cursor, record_at, records_of, two, walk_from};
use wire::name::Name;

// What a class and a union say alike: whether it is a forward reference, its byte size, and its names.
#[derive(Clone, Copy, Debug, PartialEq, Eq)]
pub struct Layout {
    pub forward: bool,
    pub size: u64,
    pub name: Name,
    pub unique: Option<Name>,
}

impl From<ClassType> for Layout {
    ghost from_gives = { λ c l. l ≡ record { forward = c.forward; size = c.size; name = c.name; unique = c.unique } };

    fn from(c: ClassType) -> Layout {
        Layout {
            forward: c.forward,
            size: c.size,
            name: c.name,
            unique: c.unique,
        }
    }
}

impl From<UnionType> for Layout {
    ghost from_gives = { λ u l. l ≡ record { forward = u.forward; size = u.size; name = u.name; unique = u.unique } };

    fn from(u: UnionType) -> Layout {
        Layout {
            forward: u.forward,
            size: u.size,
            name: u.name,
            unique: u.unique,
        }
    }
}

// The name by which a record is matched.
#[tactic(auto, unfolding(rules::specs::Record::match_name))]
pub fn match_name<'a>(types: &'a [u8], name: Name, unique: Option<Name>) -> &'a [u8]
    ensures { result.now ≡ match_name types.now name unique }
{
    name_of(types, unique.unwrap_or(name))
}

// Whether a kind is that of a class, struct, union or interface.
#[tactic(auto, unfolding(crate::specs::Sizes::layout_kind))]
fn is_layout(kind: u16) -> bool
    ensures { result ≡ layout_kind kind }
{
    matches!(kind, LF_CLASS | LF_STRUCTURE | LF_UNION | LF_INTERFACE)
}

// Whether the head of the record at a place shows that it is none of these, or a forward reference. It is told without decoding the record.
#[tactic(auto, unfolding(crate::specs::Sizes::passed_over, wire::specs::Field::field))]
fn passed_over(s: &[u8], at: usize) -> bool
    ensures { result ≡ passed_over s.now at }
{
    if s.len() < 8 || s.len() - 8 < at {
        return false;
    }
    !is_layout(two(s, at + 2)) || has_bit(u32::from(two(s, at + 6)), 7)
}

// Up to which index the scan goes on from the start of one, which is the next at least.
fn stretch_end(l: Spacing, stream: Stream, at: u32) -> u32
    requires { at < stream.end }
    ensures { result ≡ min (max (serves_until l stream at) (at + 1)) stream.end }
{
    let until = serves_until(l, stream, at).min(stream.end as usize);
    (until as u32).max(at + 1)
}

// What is looked for, and where: the first full record with a name.
#[derive(Clone, Copy)]
struct Scan<'a> {
    types: &'a [u8],
    stream: Stream,
    name: &'a [u8],
}

impl<'a> Scan<'a> {
    // The size of a class or union that is full and has the name.
    #[inline(always)]
    #[tactic(auto, using(crate::proofs::FullLaws::equal_bytes))]
    fn of_layout(&self, l: Layout) -> Option<u64>
        ensures { FullLayout l.forward l.size (match_name self.now.types.now l.name l.unique) self.now.name.now result }
    {
        (!l.forward && match_name(self.types, l.name, l.unique) == self.name).then_some(l.size)
    }

    // What was read of a record says.
    #[inline(always)]
    #[tactic(auto, unfolding(rules::specs::Record::type_as_read, rules::specs::Record::type_contents, rules::specs::Sizes::full_or, rules::specs::Sizes::full_named, rules::specs::Sizes::full_layout))]
    fn of_read(&self, t: Result<TypeData, Refusal>) -> Option<u64>
        ensures { FullOf self.now.types.now t self.now.name.now result }
    {
        match t {
            Ok(TypeData::Class(c)) => self.of_layout(Layout::from(c)),
            Ok(TypeData::Union(u)) => self.of_layout(Layout::from(u)),
            _ => None,
        }
    }

    // What a record of a kind says, by its fields.
    #[tactic(auto, unfolding(codeview::specs::Record::type_of))]
    fn of_fields(&self, f: &Fields<'_>, kind: u16) -> Option<u64>
        ensures { FullOf self.now.types.now (type_of (Err (Malformed f.now.index)) f.now.base kind f.now.bytes.now) self.now.name.now result }
    {
        match kind {
            LF_CLASS => self.of_read(class(f, ClassKind::Class)),
            LF_STRUCTURE => self.of_read(class(f, ClassKind::Struct)),
            LF_INTERFACE => self.of_read(class(f, ClassKind::Interface)),
            LF_UNION => self.of_read(union_type(f)),
            _ => None,
        }
    }

    // What the record at a place says.
    #[tactic(auto, using(crate::proofs::HeadLaws::head_passes, crate::proofs::HeadLaws::by_record, crate::proofs::HeadLaws::record_inside), unfolding(codeview::specs::Read::type_in, rules::specs::Record::type_as_read, rules::specs::Sizes::full_or))]
    fn at(&self, c: Cursor) -> Option<u64>
        ensures { FullOf self.now.types.now (type_in self.now.types.now self.now.stream c.at c.index) self.now.name.now result }
    {
        if passed_over(self.types, c.at) {
            return None;
        }
        let record = record_at(records_of(self.types, self.stream), c.at).ok()?;
        self.of_fields(&Fields::of(self.types, record, c.index), record.kind)
    }

    // What the records from an index up to another say, walked to from a start.
    fn between(&self, from: Cursor, start: u32, stop: u32) -> Option<u64>
        requires { (0x1000 ≤ start) × (from.index ≤ start) }
        ensures { FullBetween self.now.types.now self.now.stream from start stop self.now.name.now result }
    {
        let mut at = walk_from(self.types, self.stream, from, start);
        while let Ok(c) = at {
            if stop <= c.index {
                return None;
            }
            if let Some(size) = self.at(c) {
                return Some(size);
            }
            at = next_cursor(self.types, self.stream, c);
        }
        None
    }
}

// The forward reference at an index, with its name and its own size. No index below 0x1000 or the stream's first is a record.
pub fn get_size_for_forward_reference(lent: &Lent, index: TypeIndex, name: &[u8], own: u64) -> u64
    ensures { FullSize lent.now.types.now (near_in lent.now) index.0 name.now own result }
{
    let stream = stream_in(lent.bounds, StreamKind::Types);
    let l = spacing_in(lent.bounds, StreamKind::Types);
    let scan = Scan {
        types: lent.types,
        stream,
        name,
    };
    let i = index.0;
    if stream.end <= i {
        return own;
    }
    let mut at = (i + 1).max(0x1000).max(stream.first);
    while at < stream.end {
        let from = start_of(lent.places, l, stream, at);
        let stop = stretch_end(l, stream, at);
        if let Some(size) = scan.between(from, at, stop) {
            return size;
        }
        at = stop;
    }
    own
}
