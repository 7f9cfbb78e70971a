// The text of a type index. The writers of types, pointers, methods and arguments call each other, and end because each index that is opened is one of at
// most 96. They are lent one list for these: what is open lies from `left` on, and each writes only below. A writer that is given a stopped pen returns at
// once.
#![tactic(auto)]

ghost use Rattle.std.specs.Prelude.{◌≡◌, ◌-◌, ◌≤◌, ◌<◌, false, [], ◌∷◌};
ghost use Rattle.rules.specs.Text.{level};
ghost use Rattle.rules.specs.Record.{method, procedure, arguments, type_contents};
ghost use Rattle.rules.specs.Places.{lent_in};
ghost use Rattle.rules.specs.Task.{by_itself, modified, element, texted};
ghost use Rattle.rules.specs.Types.{type_text, result as result_rule, method_arguments, argument_entries};
ghost use Rattle.rules.specs.Pointers.{pointed};
ghost use Rattle.pen.specs.Page.{page};
ghost use Rattle.context.specs.Context.{settings_of, levels_of};
ghost use Rattle.context.specs.Opening.{Writes};
ghost use Rattle.emit.specs.Walking.{walking, ruling, method_of, entries_at, list_rule, plain_pointed, aimed_at, way_to};

use codeview::index::TypeIndex;
use codeview::lent::Lent;
use codeview::record::{
    ArrayType, Entries, MemberFunctionType, PointerMode, ProcedureType, TypeData,
};
use context::flags::{Call, TypeFormatterFlags};
use context::levels::{Levels, PtrAttributes};
use context::seen::{Way, open_index};
use leaf_writers::attributes::emit_attributes;
use leaf_writers::brackets::emit_brackets;
use leaf_writers::fragments::{
    emit_attributes_since, emit_comma, emit_record, entry_at, hides_return, is_void,
};
use leaf_writers::marks::{emit_mark, mark_missing};
use leaf_writers::named::emit_primitive;
use pen::Pen;
use queries::arrays::{ArrayStop, get_array_info};
use queries::sizes::{TooLong, get_type_size};
use queries::this::check_ptr_class;
use streams::refusal::Refusal;

// A result and a space; nothing where there is none to write.
#[cycle(type_writers)]
pub fn emit_return_type(
    lent: &Lent,
    out: &mut [u8],
    p: Pen,
    call: Call,
    seen: &mut [u64; 96],
    left: usize,
    none: bool,
    index: TypeIndex,
) -> Pen
    requires { left ≤ 96 }
    ensures { Writes left seen.old seen.new (page out.old p) (λ o. ruling lent.now.types.now (lent_in lent.now) call o (result_rule (settings_of call) none index.0)) (page out.new result) }
{
    if none {
        return p;
    }
    let a = emit_type_index(lent, out, p, call, seen, left, index);
    pen::text(out, a, b" ")
}

// A method's arguments: its list is opened, then read, then the this pointer is looked at, then all is written.
#[cycle(type_writers)]
pub fn emit_method_args(
    lent: &Lent,
    out: &mut [u8],
    p: Pen,
    call: Call,
    seen: &mut [u64; 96],
    left: usize,
    m: MemberFunctionType,
    closes: bool,
) -> Pen
    requires { left ≤ 96 }
    ensures { Writes left seen.old seen.new (page out.old p) (λ o. ruling lent.now.types.now (lent_in lent.now) call o (method_arguments (settings_of call) (method_of m) closes)) (page out.new result) }
{
    if call.has(TypeFormatterFlags::NO_ARGUMENTS) {
        return p;
    }
    let index = m.arguments;
    let q = open_index(p, seen, left, Way::List, index);
    if pen::is_idle(q) {
        return q;
    }
    match lent.type_at(index) {
        Ok(TypeData::ArgumentList(e)) => args(lent, out, q, call, seen, left - 1, m, e, closes),
        Ok(_) => pen::refuse(out, q, Refusal::ArgumentTypeNotArgumentList(index.0)),
        Err(f) => pen::unread(out, q, f),
    }
}

// A method's arguments, its list read: a this pointer that is not one to the class is the first.
#[cycle(type_writers)]
fn args(
    lent: &Lent,
    out: &mut [u8],
    p: Pen,
    call: Call,
    seen: &mut [u64; 96],
    left: usize,
    m: MemberFunctionType,
    e: Entries,
    closes: bool,
) -> Pen
    requires { left ≤ 96 }
    ensures { Writes left seen.old seen.new (page out.old p) (λ o. ruling lent.now.types.now (lent_in lent.now) call o (list_rule lent.now.types.now (lent_in lent.now) call m closes e)) (page out.new result) }
{
    match check_ptr_class(lent, m.this, m.class) {
        Ok(Some(constant)) => {
            let a = pen::text(out, p, b"(");
            let b = emit_arg_list(lent, out, a, call, seen, left, false, e);
            let c = pen::text(out, b, b")");
            pen::text_if(out, c, closes && constant, b" const")
        }
        Ok(None) => {
            let a = pen::text(out, p, b"(");
            let b = emit_type_index(lent, out, a, call, seen, left, m.this);
            let c = emit_arg_list(lent, out, b, call, seen, left, true, e);
            pen::text(out, c, b")")
        }
        Err(f) => pen::unread(out, p, f),
    }
}

// A pointer to a method.
#[cycle(type_writers)]
fn emit_member_ptr(
    lent: &Lent,
    out: &mut [u8],
    p: Pen,
    call: Call,
    seen: &mut [u64; 96],
    left: usize,
    levels: Levels,
    m: MemberFunctionType,
) -> Pen
    requires { left ≤ 96 }
    ensures { Writes left seen.old seen.new (page out.old p) (λ o. ruling lent.now.types.now (lent_in lent.now) call o (pointed (settings_of call) (levels_of levels) (method (method_of m)))) (page out.new result) }
{
    let a = emit_return_type(lent, out, p, call, seen, left, m.constructor, m.result);
    let b = pen::text(out, a, b"(");
    let c = emit_type_index(lent, out, b, call, seen, left, m.class);
    let d = emit_attributes(out, c, call, levels, false, false);
    let e = pen::text(out, d, b")");
    emit_method_args(lent, out, e, call, seen, left, m, false)
}

// A pointer to a procedure.
#[cycle(type_writers)]
fn emit_proc_ptr(
    lent: &Lent,
    out: &mut [u8],
    p: Pen,
    call: Call,
    seen: &mut [u64; 96],
    left: usize,
    levels: Levels,
    x: ProcedureType,
) -> Pen
    requires { left ≤ 96 }
    ensures { Writes left seen.old seen.new (page out.old p) (λ o. ruling lent.now.types.now (lent_in lent.now) call o (pointed (settings_of call) (levels_of levels) (procedure x.result.0 x.constructor x.arguments.0))) (page out.new result) }
{
    let none = is_void(x.constructor, x.result);
    let a = emit_return_type(lent, out, p, call, seen, left, none, x.result);
    let b = pen::text(out, a, b"(");
    let c = emit_attributes(out, b, call, levels, false, false);
    let d = pen::text(out, c, b")");
    let e = pen::text(out, d, b"(");
    let f = emit_type_index(lent, out, e, call, seen, left, x.arguments);
    pen::text(out, f, b")")
}

// A pointer to any other type: its text, then the signs.
#[cycle(type_writers)]
#[tactic(auto, using(crate::proofs::Laws::arrayed_low))]
fn emit_other_ptr(
    lent: &Lent,
    out: &mut [u8],
    p: Pen,
    call: Call,
    seen: &mut [u64; 96],
    left: usize,
    levels: Levels,
    t: TypeData,
) -> Pen
    requires { left < 96 }
    ensures { Writes left seen.old seen.new (page out.old p) (λ o. ruling lent.now.types.now (lent_in lent.now) call o (plain_pointed (settings_of call) (levels_of levels) (type_contents lent.now.types.now t))) (page out.new result) }
{
    let start = p.at;
    let q = emit_type(lent, out, p, call, seen, left, t);
    emit_attributes_since(out, q, call, levels, start)
}

// What is under pointers, by its kind.
#[cycle(type_writers)]
fn emit_ptr_helper(
    lent: &Lent,
    out: &mut [u8],
    p: Pen,
    call: Call,
    seen: &mut [u64; 96],
    left: usize,
    levels: Levels,
    t: TypeData,
) -> Pen
    requires { left < 96 }
    ensures { Writes left seen.old seen.new (page out.old p) (λ o. ruling lent.now.types.now (lent_in lent.now) call o (pointed (settings_of call) (levels_of levels) (type_contents lent.now.types.now t))) (page out.new result) }
{
    match t {
        TypeData::MemberFunction(m) => emit_member_ptr(lent, out, p, call, seen, left, levels, m),
        TypeData::Procedure(x) => emit_proc_ptr(lent, out, p, call, seen, left, levels, x),
        _ => emit_other_ptr(lent, out, p, call, seen, left, levels, t),
    }
}

// A pointer's target, or that of a pointer's modifier, under the levels so far: another pointer goes on, and so does a first modifier.
#[cycle(type_writers)]
fn emit_ptr(
    lent: &Lent,
    out: &mut [u8],
    p: Pen,
    call: Call,
    seen: &mut [u64; 96],
    left: usize,
    levels: Levels,
    modified: bool,
    index: TypeIndex,
) -> Pen
    requires { (left ≤ levels.left) × (levels.left ≤ 96) }
    ensures { Writes left seen.old seen.new (page out.old p) (λ o. walking lent.now.types.now (lent_in lent.now) call o (aimed_at modified index.0 (levels_of levels))) (page out.new result) }
{
    let q = open_index(p, seen, left, way_to(modified), index);
    if pen::is_idle(q) {
        return q;
    }
    let n = left - 1;
    let t = match lent.type_at(index) {
        Ok(t) => t,
        Err(f) => return pen::unread(out, q, f),
    };
    match t {
        TypeData::Pointer(x) => {
            let further = aim(levels, x.constant, x.mode);
            emit_ptr(lent, out, q, call, seen, n, further, false, x.underlying)
        }
        TypeData::Modifier(m) if !modified => {
            let over = levels.over_pointee(m.constant);
            emit_ptr(lent, out, q, call, seen, n, over, true, m.underlying)
        }
        _ => emit_ptr_helper(lent, out, q, call, seen, n, levels, t),
    }
}

// The levels of an array and the size of its base come first, then the base, then the levels in brackets.
#[cycle(type_writers)]
#[tactic(auto, using(crate::proofs::Laws::arrayed_not))]
fn emit_array(
    lent: &Lent,
    out: &mut [u8],
    p: Pen,
    call: Call,
    seen: &mut [u64; 96],
    left: usize,
    x: ArrayType,
) -> Pen
    requires { left < 96 }
    ensures { Writes left seen.old seen.new (page out.old p) (λ o. walking lent.now.types.now (lent_in lent.now) call o (element x.element.0 (x.size ∷ []))) (page out.new result) }
{
    let info = get_array_info(lent, x.element, x.size);
    // Taken out at once: handed on out of `info` below, they would be copied twice.
    let sizes = info.sizes;
    let t = match info.holds {
        Ok(t) => t,
        Err(ArrayStop::TooLong(index)) => return pen::too_long(out, p, index.0),
        Err(ArrayStop::Refused(f)) => return pen::unread(out, p, f),
    };
    let size = match get_type_size(lent, call, info.base, 0) {
        Ok(size) => size,
        Err(TooLong(index)) => return pen::too_long(out, p, index),
    };
    let q = base(lent, out, p, call, seen, left, t);
    emit_brackets(out, q, sizes, size)
}

// An array's base or what is under a modifier, with the text that `emit_type` has for it. A pointer and a modifier are gone on with at once, so that a row of
// pointers to arrays waits in few frames, and one of modifiers costs few hand-overs.
#[cycle(type_writers)]
fn base(
    lent: &Lent,
    out: &mut [u8],
    p: Pen,
    call: Call,
    seen: &mut [u64; 96],
    left: usize,
    t: TypeData,
) -> Pen
    requires { left < 96 }
    ensures { Writes left seen.old seen.new (page out.old p) (λ o. ruling lent.now.types.now (lent_in lent.now) call o (texted (type_text (settings_of call) (type_contents lent.now.types.now t)))) (page out.new result) }
{
    if pen::is_idle(p) {
        return p;
    }
    match t {
        TypeData::Pointer(x) => {
            let first = aim(Levels::new(), x.constant, x.mode);
            let q = emit_ptr(lent, out, p, call, seen, left, first, false, x.underlying);
            mark_missing(out, q)
        }
        TypeData::Modifier(m) => {
            let q = emit_modifier(lent, out, p, call, seen, left, m.constant, m.underlying);
            mark_missing(out, q)
        }
        _ => emit_type(lent, out, p, call, seen, left, t),
    }
}

// Any other modifier's target: a pointer takes the const, a primitive leads with it, any other type has it before its own text.
#[cycle(type_writers)]
fn emit_modifier(
    lent: &Lent,
    out: &mut [u8],
    p: Pen,
    call: Call,
    seen: &mut [u64; 96],
    left: usize,
    constant: bool,
    index: TypeIndex,
) -> Pen
    requires { left ≤ 96 }
    ensures { Writes left seen.old seen.new (page out.old p) (λ o. walking lent.now.types.now (lent_in lent.now) call o (modified index.0 constant)) (page out.new result) }
{
    let q = open_index(p, seen, left, Way::Modified, index);
    if pen::is_idle(q) {
        return q;
    }
    let n = left - 1;
    match lent.type_at(index) {
        Ok(TypeData::Pointer(x)) => {
            let first = aim(Levels::new(), x.constant || constant, x.mode);
            emit_ptr(lent, out, q, call, seen, n, first, false, x.underlying)
        }
        Ok(TypeData::Primitive(x)) => emit_primitive(out, q, call, constant, x.code, x.indirection),
        Ok(t) => {
            let a = pen::text_if(out, q, constant, b"const ");
            base(lent, out, a, call, seen, n, t)
        }
        Err(f) => pen::unread(out, q, f),
    }
}

// The entries of a list by themselves, a comma before each but the first, or before all.
#[cycle(type_writers)]
fn emit_arg_list(
    lent: &Lent,
    out: &mut [u8],
    p: Pen,
    call: Call,
    seen: &mut [u64; 96],
    left: usize,
    led: bool,
    e: Entries,
) -> Pen
    requires { left ≤ 96 }
    ensures { Writes left seen.old seen.new (page out.old p) (λ o. ruling lent.now.types.now (lent_in lent.now) call o (argument_entries (settings_of call) led (entries_at lent.now.types.now e))) (page out.new result) }
{
    let mut q = p;
    let mut between = led;
    for i in 0..e.count {
        if pen::is_idle(q) {
            return q;
        }
        let c = emit_comma(out, q, call, between);
        let index = TypeIndex(entry_at(lent.types, e, i));
        q = emit_type_index(lent, out, c, call, seen, left, index);
        between = true;
    }
    q
}

// An index by itself: read, then opened, then written; its mark where it cannot be read.
#[cycle(type_writers)]
pub fn emit_type_index(
    lent: &Lent,
    out: &mut [u8],
    p: Pen,
    call: Call,
    seen: &mut [u64; 96],
    left: usize,
    index: TypeIndex,
) -> Pen
    requires { left ≤ 96 }
    ensures { Writes left seen.old seen.new (page out.old p) (λ o. walking lent.now.types.now (lent_in lent.now) call o (by_itself index.0)) (page out.new result) }
{
    if pen::is_idle(p) {
        return p;
    }
    let t = match lent.type_at(index) {
        Ok(t) => t,
        Err(f) => return emit_mark(out, p, f),
    };
    let q = open_index(p, seen, left, Way::Itself, index);
    if pen::is_idle(q) {
        return q;
    }
    emit_type(lent, out, q, call, seen, left - 1, t)
}

// A type's text, with the mark where an index in it was missing.
#[cycle(type_writers)]
fn emit_type(
    lent: &Lent,
    out: &mut [u8],
    p: Pen,
    call: Call,
    seen: &mut [u64; 96],
    left: usize,
    t: TypeData,
) -> Pen
    requires { left < 96 }
    ensures { Writes left seen.old seen.new (page out.old p) (λ o. ruling lent.now.types.now (lent_in lent.now) call o (texted (type_text (settings_of call) (type_contents lent.now.types.now t)))) (page out.new result) }
{
    if pen::is_idle(p) {
        return p;
    }
    let q = emit_type_inner(lent, out, p, call, seen, left, t);
    mark_missing(out, q)
}

// A type by its kind. A bare procedure's text has no closing parenthesis.
#[cycle(type_writers)]
#[tactic(auto, using(crate::proofs::Laws::arrayed_is))]
fn emit_type_inner(
    lent: &Lent,
    out: &mut [u8],
    p: Pen,
    call: Call,
    seen: &mut [u64; 96],
    left: usize,
    t: TypeData,
) -> Pen
    requires { left < 96 }
    ensures { Writes left seen.old seen.new (page out.old p) (λ o. ruling lent.now.types.now (lent_in lent.now) call o (type_text (settings_of call) (type_contents lent.now.types.now t))) (page out.new result) }
{
    match t {
        TypeData::Primitive(x) => emit_primitive(out, p, call, false, x.code, x.indirection),
        TypeData::Modifier(m) => {
            emit_modifier(lent, out, p, call, seen, left, m.constant, m.underlying)
        }
        TypeData::Pointer(x) => {
            let first = aim(Levels::new(), x.constant, x.mode);
            emit_ptr(lent, out, p, call, seen, left, first, false, x.underlying)
        }
        TypeData::Procedure(x) => {
            let none = hides_return(call, is_void(x.constructor, x.result));
            let a = emit_return_type(lent, out, p, call, seen, left, none, x.result);
            let b = pen::text(out, a, b"()(");
            emit_type_index(lent, out, b, call, seen, left, x.arguments)
        }
        TypeData::MemberFunction(m) => {
            let none = hides_return(call, m.constructor);
            let a = emit_return_type(lent, out, p, call, seen, left, none, m.result);
            let b = pen::text(out, a, b"()");
            emit_method_args(lent, out, b, call, seen, left, m, false)
        }
        TypeData::ArgumentList(e) => emit_arg_list(lent, out, p, call, seen, left, false, e),
        TypeData::Array(x) => emit_array(lent, out, p, call, seen, left, x),
        _ => emit_record(lent.types, out, p, call, t),
    }
}

// One pointer further in.
fn aim(o: Levels, constant: bool, mode: PointerMode) -> Levels
    requires { (0 < o.left) × (o.left ≤ 96) }
    ensures { (result.left ≡ o.left - 1) × (levels_of result ≡ level constant false mode ∷ levels_of o) }
{
    o.push(PtrAttributes {
        constant,
        pointee: false,
        mode,
    })
}

// How a target is opened: a pointer's, or that of a pointer's modifier.
fn way_to(modified: bool) -> Way
    ensures { result ≡ way_to modified }
{
    if modified {
        Way::TargetOfModifier
    } else {
        Way::Target
    }
}
