// What the writers of types share, and opens no index: the entries of a list, when a result is written, the names of records, and the signs behind a text.
ghost use Rattle.std.specs.Prelude.{◌≡◌, true, ◌||◌, ◌+◌, ◌*◌, ◌≤◌, eqb, get_or, length, []};
ghost use Rattle.wire.specs.Field.{number, pick};
ghost use Rattle.rules.specs.Types.{comma};
ghost use Rattle.rules.specs.Text.{levels};
ghost use Rattle.pen.specs.Page.{read_pen, page, Wrote, writing, last_since};
ghost use Rattle.context.specs.Context.{settings_of, levels_of};
ghost use Rattle.leaf_writers.specs.Fragments.{static_text, record_text, is_sign};

use crate::attributes::emit_attributes;
use crate::marks::unhandled_type;
use crate::named::{emit_class, emit_named};
use crate::names::name_of;
use codeview::index::TypeIndex;
use codeview::record::{Entries, TypeData};
use context::flags::{Call, TypeFormatterFlags};
use context::levels::Levels;
use pen::Pen;

fn byte_or_zero(s: &[u8], at: usize) -> u8
    ensures { result ≡ get_or s.now at 0 }
{
    s.get(at).copied().unwrap_or(0)
}

// An entry that is wholly inside: its bytes are read at once.
#[tactic(auto, unfolding(wire::specs::Field::number))]
fn entry_inside(s: &[u8], at: usize) -> u32
    requires { at + 4 ≤ length s.now }
    ensures { result ≡ number 4 s.now at }
{
    u32::from_le_bytes([s[at], s[at + 1], s[at + 2], s[at + 3]])
}

// The entry of a list by its number; what lies outside the stream counts as zeros.
#[tactic(auto, unfolding(wire::specs::Field::number))]
pub fn entry_at(s: &[u8], list: Entries, i: u32) -> u32
    ensures { result ≡ number 4 s.now (list.start + 4 * i) }
{
    if list.start >= s.len() {
        return 0;
    }
    let at = list.start + 4 * i as usize;
    if at + 4 <= s.len() {
        return entry_inside(s, at);
    }
    let a = byte_or_zero(s, at);
    let b = byte_or_zero(s, at + 1);
    let c = byte_or_zero(s, at + 2);
    let d = byte_or_zero(s, at + 3);
    u32::from_le_bytes([a, b, c, d])
}

// A procedure with no result to write: a constructor, or one whose result is index 0.
pub fn is_void(constructor: bool, res: TypeIndex) -> bool
    ensures { result ≡ constructor || eqb res.0 0 }
{
    constructor || res.0 == 0
}

// A function with no result to write: by the flags, or since it has none.
#[tactic(auto, using(context::proofs::Laws::sets_no_return))]
pub fn hides_return(call: Call, none: bool) -> bool
    ensures { result ≡ (settings_of call).no_return || none }
{
    call.has(TypeFormatterFlags::NO_FUNCTION_RETURN) || none
}

// The comma between two arguments.
#[tactic(auto, using(context::proofs::Laws::sets_space_comma), unfolding(rules::specs::Types::comma))]
pub fn emit_comma(out: &mut [u8], p: Pen, call: Call, between: bool) -> Pen
    ensures { Wrote (page out.old p) (writing (pick between (comma (settings_of call)) [])) (page out.new result) }
{
    if call.has(TypeFormatterFlags::SPACE_AFTER_COMMA) {
        return pen::text_if(out, p, between, b", ");
    }
    pen::text_if(out, p, between, b",")
}

// `static ` before a method that has no this pointer.
#[tactic(auto, using(context::proofs::Laws::sets_no_static), unfolding(crate::specs::Fragments::static_text))]
pub fn maybe_emit_static(out: &mut [u8], p: Pen, call: Call, this: TypeIndex) -> Pen
    ensures { Wrote (page out.old p) (writing (static_text (settings_of call) this.0)) (page out.new result) }
{
    let shown = !call.has(TypeFormatterFlags::NO_MEMBER_FUNCTION_STATIC);
    pen::text_if(out, p, this.0 == 0 && shown, b"static ")
}

// A record that its text only names; nothing for any other.
#[tactic(auto, unfolding(crate::specs::Fragments::record_text, crate::specs::Signs::behind_word, rules::specs::Record::type_contents, rules::specs::Record::shown_at, rules::specs::Types::named_text, rules::specs::Text::worded))]
pub fn emit_record(types: &[u8], out: &mut [u8], p: Pen, call: Call, t: TypeData) -> Pen
    ensures { Wrote (page out.old p) (writing (record_text (settings_of call) types.now t)) (page out.new result) }
{
    match t {
        TypeData::Class(x) => emit_class(out, p, call, x.kind, name_of(types, x.name)),
        TypeData::Union(x) => emit_named(out, p, call, b"union", name_of(types, x.name)),
        TypeData::Enumeration(x) => emit_named(out, p, call, b"enum", name_of(types, x.name)),
        TypeData::Enumerate(x) => {
            emit_named(out, p, call, b"enum class", name_of(types, x.name))
        }
        TypeData::Unhandled(kind) => unhandled_type(out, p, kind),
        _ => p,
    }
}

// Whether a byte is the sign of a pointer or of a reference.
#[tactic(auto, unfolding(crate::specs::Fragments::is_sign))]
fn is_sign(b: u64) -> bool
    ensures { result ≡ is_sign b }
{
    b == u64::from(b'*') || b == u64::from(b'&')
}

// The signs of pointers behind a text: whether it ends in a sign is told by the last byte since its start.
pub fn emit_attributes_since(out: &mut [u8], p: Pen, call: Call, o: Levels, start: usize) -> Pen
    ensures { Wrote (page out.old p) (writing (levels (settings_of call) true (is_sign (last_since (read_pen p) start)) (levels_of o))) (page out.new result) }
{
    let signed = is_sign(pen::last_since(p, start));
    emit_attributes(out, p, call, o, true, signed)
}
