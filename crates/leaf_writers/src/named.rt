// Primitives, and what has a name behind the word for its kind.
ghost use Rattle.utf8.specs.Utf8.{shown};
ghost use Rattle.rules.specs.Text.{primitive_text, class_text};
ghost use Rattle.pen.specs.Page.{page, Wrote, writing};
ghost use Rattle.context.specs.Context.{settings_of};
ghost use Rattle.leaf_writers.specs.Signs.{behind_word, class_word};

use crate::names::{emit_kind, emit_shown};
use codeview::record::ClassKind;
use context::flags::{Call, TypeFormatterFlags};
use pen::Pen;

// A primitive with the const of its modifier: before the name, or behind it where it is pointed to.
pub fn emit_primitive(
    out: &mut [u8],
    p: Pen,
    call: Call,
    constant: bool,
    code: u8,
    indirection: u32,
) -> Pen
    ensures { Wrote (page out.old p) (writing (primitive_text (settings_of call) constant code indirection)) (page out.new result) }
{
    if indirection == 0 {
        let q = pen::text_if(out, p, constant, b"const ");
        return emit_kind(out, q, code);
    }
    let k = emit_kind(out, p, code);
    let r = pen::text_if(out, k, constant, b" const");
    let space = call.has(TypeFormatterFlags::SPACE_BEFORE_POINTER);
    let t = pen::text_if(out, r, space, b" ");
    pen::text(out, t, b"*")
}

// A record's name behind the word for its kind, or alone.
pub fn emit_named(out: &mut [u8], p: Pen, call: Call, word: &[u8], name: &[u8]) -> Pen
    ensures { Wrote (page out.old p) (writing (behind_word (settings_of call) word.now (shown name.now))) (page out.new result) }
{
    if call.has(TypeFormatterFlags::NAME_ONLY) {
        return emit_shown(out, p, name);
    }
    let q = pen::text(out, p, word);
    let r = pen::text(out, q, b" ");
    emit_shown(out, r, name)
}

// The word for a kind of class and a space, unless names stand alone.
#[tactic(auto, using(context::proofs::Laws::sets_name_only), unfolding(crate::specs::Signs::class_word))]
fn emit_word(out: &mut [u8], p: Pen, call: Call, kind: ClassKind) -> Pen
    ensures { Wrote (page out.old p) (writing (class_word (settings_of call) kind)) (page out.new result) }
{
    let alone = call.has(TypeFormatterFlags::NAME_ONLY);
    if alone {
        return p;
    }
    match kind {
        ClassKind::Class => pen::text(out, p, b"class "),
        ClassKind::Struct => pen::text(out, p, b"struct "),
        ClassKind::Interface => pen::text(out, p, b"interface "),
    }
}

pub fn emit_class(out: &mut [u8], p: Pen, call: Call, kind: ClassKind, name: &[u8]) -> Pen
    ensures { Wrote (page out.old p) (writing (class_text (settings_of call) kind (shown name.now))) (page out.new result) }
{
    let q = emit_word(out, p, call, kind);
    emit_shown(out, q, name)
}
