// The texts of functions and of ids. Each opens its function type first, in a list of its own; an id that is a scope counts in a chain of at most 32.
#![tactic(auto)]

ghost use Rattle.std.specs.Prelude.{◌≡◌, false, [], ◌+◌, ◌≤◌, ◌<◌};
ghost use Rattle.interpreter.specs.Trace.{write};
ghost use Rattle.utf8.specs.Utf8.{shown};
ghost use Rattle.rules.specs.Record.{shown_at};
ghost use Rattle.rules.specs.Places.{lent_in};
ghost use Rattle.rules.specs.Task.{function_of, id_of, function_id, member_id};
ghost use Rattle.rules.specs.Types.{procedure_result, procedure_arguments, returned};
ghost use Rattle.rules.specs.Methods.{method_named, procedure_named};
ghost use Rattle.rules.specs.Ids.{scope_text, string_entries};
ghost use Rattle.pen.specs.Page.{page, Wrote};
ghost use Rattle.context.specs.Context.{settings_of};
ghost use Rattle.context.specs.Opening.{Writes};
ghost use Rattle.emit.specs.Walking.{walking, ruling, method_of, entries_at};
ghost use Rattle.id_writers.specs.Ids.{further, method_start, member_named};

use codeview::index::{IdIndex, TypeIndex};
use codeview::lent::Lent;
use codeview::record::{
    Entries, FunctionId, IdData, MemberFunctionId, MemberFunctionType, ProcedureType, TypeData,
};
use context::flags::{Call, TypeFormatterFlags};
use context::seen::{Way, open_index};
use emit::{emit_method_args, emit_return_type, emit_type_index};
use leaf_writers::fragments::{entry_at, hides_return, is_void, maybe_emit_static};
use leaf_writers::marks::{emit_mark, unhandled_scope};
use leaf_writers::names::{emit_name_str, emit_shown_str, name_of};
use leaf_writers::strings::emit_string;
use pen::Pen;
use streams::refusal::Refusal;

// One id further in the chain of scopes.
fn deeper(call: Call) -> Call
    requires { call.chain < 32 }
    ensures { result ≡ further call }
{
    Call {
        chain: call.chain + 1,
        ..call
    }
}

// A procedure's arguments.
fn emit_arguments(
    lent: &Lent,
    out: &mut [u8],
    p: Pen,
    call: Call,
    seen: &mut [u64; 96],
    left: usize,
    list: TypeIndex,
) -> Pen
    requires { left ≤ 96 }
    ensures { Writes left seen.old seen.new (page out.old p) (λ o. ruling lent.now.types.now (lent_in lent.now) call o (procedure_arguments (settings_of call) list.0)) (page out.new result) }
{
    if call.has(TypeFormatterFlags::NO_ARGUMENTS) {
        return p;
    }
    let a = pen::text(out, p, b"(");
    let b = emit_type_index(lent, out, a, call, seen, left, list);
    pen::text(out, b, b")")
}

// A procedure's result, unless there is none to write.
fn emit_result(
    lent: &Lent,
    out: &mut [u8],
    p: Pen,
    call: Call,
    seen: &mut [u64; 96],
    left: usize,
    x: ProcedureType,
) -> Pen
    requires { left ≤ 96 }
    ensures { Writes left seen.old seen.new (page out.old p) (λ o. ruling lent.now.types.now (lent_in lent.now) call o (returned (settings_of call) (procedure_result (settings_of call) x.constructor x.result.0))) (page out.new result) }
{
    let none = hides_return(call, is_void(x.constructor, x.result));
    emit_return_type(lent, out, p, call, seen, left, none, x.result)
}

// A procedure by the name that the caller gives.
fn emit_procedure(
    lent: &Lent,
    out: &mut [u8],
    p: Pen,
    call: Call,
    seen: &mut [u64; 96],
    left: usize,
    name: &[u8],
    x: ProcedureType,
) -> Pen
    requires { left ≤ 96 }
    ensures { Writes left seen.old seen.new (page out.old p) (λ o. ruling lent.now.types.now (lent_in lent.now) call o (procedure_named (settings_of call) x.result.0 x.constructor x.arguments.0 (write []) name.now)) (page out.new result) }
{
    let a = emit_result(lent, out, p, call, seen, left, x);
    let b = emit_name_str(out, a, name);
    emit_arguments(lent, out, b, call, seen, left, x.arguments)
}

// A function by its name and type: the type is opened, then read. Type 0 writes only the name, and so does a type that is no function's.
pub fn emit_function(
    lent: &Lent,
    out: &mut [u8],
    p: Pen,
    call: Call,
    name: &[u8],
    index: TypeIndex,
) -> Pen
    ensures { Wrote (page out.old p) (walking lent.now.types.now (lent_in lent.now) call [] (function_of index.0 name.now)) (page out.new result) }
{
    if index.0 == 0 {
        return emit_name_str(out, p, name);
    }
    let mut list = [0; 96];
    let q = open_index(p, &mut list, 96, Way::Function, index);
    if pen::is_idle(q) {
        return q;
    }
    match lent.type_at(index) {
        Ok(TypeData::MemberFunction(m)) => emit_method(lent, out, q, call, &mut list, 95, name, m),
        Ok(TypeData::Procedure(x)) => emit_procedure(lent, out, q, call, &mut list, 95, name, x),
        Ok(_) => pen::text(out, q, name),
        Err(f) => pen::unread(out, q, f),
    }
}

// What stands first in a method's text: whether it is static, and its result.
fn emit_method_start(
    lent: &Lent,
    out: &mut [u8],
    p: Pen,
    call: Call,
    seen: &mut [u64; 96],
    left: usize,
    m: MemberFunctionType,
) -> Pen
    requires { left ≤ 96 }
    ensures { Writes left seen.old seen.new (page out.old p) (λ o. ruling lent.now.types.now (lent_in lent.now) call o (method_start (settings_of call) (method_of m))) (page out.new result) }
{
    let hidden = hides_return(call, m.constructor);
    let a = maybe_emit_static(out, p, call, m.this);
    emit_return_type(lent, out, a, call, seen, left, hidden, m.result)
}

// A method by the name that the caller gives.
fn emit_method(
    lent: &Lent,
    out: &mut [u8],
    p: Pen,
    call: Call,
    seen: &mut [u64; 96],
    left: usize,
    name: &[u8],
    m: MemberFunctionType,
) -> Pen
    requires { left ≤ 96 }
    ensures { Writes left seen.old seen.new (page out.old p) (λ o. ruling lent.now.types.now (lent_in lent.now) call o (method_named (settings_of call) (method_of m) (write []) name.now)) (page out.new result) }
{
    let a = emit_method_start(lent, out, p, call, seen, left, m);
    let b = emit_name_str(out, a, name);
    emit_method_args(lent, out, b, call, seen, left, m, true)
}

// A member function by its parent, which is a type, and by the bytes of its name, which are shown.
fn emit_member(
    lent: &Lent,
    out: &mut [u8],
    p: Pen,
    call: Call,
    seen: &mut [u64; 96],
    left: usize,
    parent: TypeIndex,
    name: &[u8],
    m: MemberFunctionType,
) -> Pen
    requires { left ≤ 96 }
    ensures { Writes left seen.old seen.new (page out.old p) (λ o. ruling lent.now.types.now (lent_in lent.now) call o (member_named (settings_of call) (method_of m) parent.0 (shown name.now))) (page out.new result) }
{
    let a = emit_method_start(lent, out, p, call, seen, left, m);
    let b = emit_type_index(lent, out, a, call, seen, left, parent);
    let c = pen::text(out, b, b"::");
    let d = emit_shown_str(out, c, name);
    emit_method_args(lent, out, d, call, seen, left, m, true)
}

// A member function id.
fn emit_member_id(lent: &Lent, out: &mut [u8], p: Pen, call: Call, d: MemberFunctionId) -> Pen
    ensures { Wrote (page out.old p) (walking lent.now.types.now (lent_in lent.now) call [] (member_id d.parent.0 d.function.0 (shown_at lent.now.ids.now d.name))) (page out.new result) }
{
    let function = d.function;
    let mut list = [0; 96];
    let q = open_index(p, &mut list, 96, Way::Function, function);
    if pen::is_idle(q) {
        return q;
    }
    match lent.type_at(function) {
        Ok(TypeData::MemberFunction(m)) => {
            let name = name_of(lent.ids, d.name);
            emit_member(lent, out, q, call, &mut list, 95, d.parent, name, m)
        }
        Ok(_) => {
            let wrong = Refusal::MemberFunctionIdIsNotMemberFunctionType(function.0);
            pen::refuse(out, q, wrong)
        }
        Err(f) => pen::unread(out, q, f),
    }
}

// The entries of a string list, written as types.
fn emit_string_list(lent: &Lent, out: &mut [u8], p: Pen, call: Call, e: Entries) -> Pen
    ensures { Wrote (page out.old p) (ruling lent.now.types.now (lent_in lent.now) call [] (string_entries (settings_of call) false (entries_at lent.now.ids.now e))) (page out.new result) }
{
    let mut list = [0; 96];
    let mut q = p;
    let mut between = false;
    for i in 0..e.count {
        if pen::is_idle(q) {
            return q;
        }
        let c = pen::text_if(out, q, between, b"\" \"");
        let index = TypeIndex(entry_at(lent.ids, e, i));
        q = emit_type_index(lent, out, c, call, &mut list, 96, index);
        between = true;
    }
    q
}

// An id. A function's scope is an id again: the allowance, 32 at first, drops by one.
#[cycle(scopes)]
pub fn emit_id(
    lent: &Lent,
    out: &mut [u8],
    p: Pen,
    call: Call,
    allowance: u32,
    index: IdIndex,
) -> Pen
    requires { call.chain + allowance ≡ 32 }
    ensures { Wrote (page out.old p) (walking lent.now.types.now (lent_in lent.now) call [] (id_of index.0)) (page out.new result) }
{
    if pen::is_idle(p) {
        return p;
    }
    let d = match lent.id_at(index) {
        Ok(d) => d,
        Err(f) => return emit_mark(out, p, f),
    };
    if allowance == 0 {
        return pen::too_long(out, p, index.0);
    }
    let inner = deeper(call);
    match d {
        IdData::Function(f) => emit_function_id(lent, out, p, inner, allowance - 1, f),
        IdData::MemberFunction(m) => emit_member_id(lent, out, p, inner, m),
        IdData::StringList(e) => {
            let a = pen::text(out, p, b"\"");
            let b = emit_string_list(lent, out, a, inner, e);
            pen::text(out, b, b"\"")
        }
        IdData::String(s) => emit_string(out, p, name_of(lent.ids, s.name)),
        IdData::Unhandled(kind) => unhandled_scope(out, p, kind),
    }
}

// A function id: its type is opened, then read.
#[cycle(scopes)]
fn emit_function_id(
    lent: &Lent,
    out: &mut [u8],
    p: Pen,
    call: Call,
    allowance: u32,
    f: FunctionId,
) -> Pen
    requires { call.chain + allowance ≡ 32 }
    ensures { Wrote (page out.old p) (walking lent.now.types.now (lent_in lent.now) call [] (function_id f.scope.0 f.function.0 (shown_at lent.now.ids.now f.name))) (page out.new result) }
{
    let function = f.function;
    let mut list = [0; 96];
    let q = open_index(p, &mut list, 96, Way::Function, function);
    if pen::is_idle(q) {
        return q;
    }
    let x = match lent.type_at(function) {
        Ok(TypeData::Procedure(x)) => x,
        Ok(_) => {
            let wrong = Refusal::FunctionIdIsNotProcedureType(function.0);
            return pen::refuse(out, q, wrong);
        }
        Err(e) => return pen::unread(out, q, e),
    };
    let a = emit_result(lent, out, q, call, &mut list, 95, x);
    let b = emit_scope(lent, out, a, call, allowance, f.scope);
    let c = emit_shown_str(out, b, name_of(lent.ids, f.name));
    emit_arguments(lent, out, c, call, &mut list, 95, x.arguments)
}

// A function's scope, which stands before its name. Index 0 is none.
#[cycle(scopes)]
fn emit_scope(
    lent: &Lent,
    out: &mut [u8],
    p: Pen,
    call: Call,
    allowance: u32,
    scope: IdIndex,
) -> Pen
    requires { call.chain + allowance ≡ 32 }
    ensures { Wrote (page out.old p) (ruling lent.now.types.now (lent_in lent.now) call [] (scope_text (settings_of call) scope.0)) (page out.new result) }
{
    if scope.0 == 0 {
        return p;
    }
    let a = emit_id(lent, out, p, call, allowance, scope);
    pen::text(out, a, b"::")
}
