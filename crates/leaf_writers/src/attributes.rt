// The signs of the pointers on the way to a type.
ghost use Rattle.std.specs.Prelude.{◌≡◌};
ghost use Rattle.rules.specs.Text.{sign, levels};
ghost use Rattle.pen.specs.Page.{page, Wrote, writing};
ghost use Rattle.context.specs.Context.{settings_of, level_of, levels_of};
ghost use Rattle.leaf_writers.specs.Signs.{const_text, spaced, level_text};

use codeview::record::PointerMode;
use context::flags::{Call, TypeFormatterFlags};
use context::levels::{Levels, PtrAttributes};
use pen::Pen;

#[tactic(auto, unfolding(rules::specs::Text::sign))]
fn emit_sign(out: &mut [u8], p: Pen, mode: PointerMode) -> Pen
    ensures { Wrote (page out.old p) (writing (sign mode)) (page out.new result) }
{
    match mode {
        PointerMode::Pointer => pen::text(out, p, b"*"),
        PointerMode::LValueReference => pen::text(out, p, b"&"),
        PointerMode::Member | PointerMode::MemberFunction => pen::text(out, p, b"::*"),
        PointerMode::RValueReference => pen::text(out, p, b"&&"),
    }
}

// The const of what is pointed to; `free` where a space may stand.
#[tactic(auto, unfolding(crate::specs::Signs::const_text))]
fn emit_const(out: &mut [u8], p: Pen, constant: bool, free: bool) -> Pen
    ensures { Wrote (page out.old p) (writing (const_text constant free)) (page out.new result) }
{
    if free {
        return pen::text_if(out, p, constant, b" const");
    }
    pen::text_if(out, p, constant, b"const")
}

// Whether a space stands before a sign: not behind another sign, and not where none may stand.
#[tactic(auto, unfolding(crate::specs::Signs::spaced))]
fn is_spaced(space: bool, free: bool, signed: bool, pointee: bool) -> bool
    ensures { result ≡ spaced space free signed pointee }
{
    space && (pointee || (free && !signed))
}

fn emit_level(out: &mut [u8], p: Pen, call: Call, free: bool, signed: bool, l: PtrAttributes) -> Pen
    ensures { Wrote (page out.old p) (writing (level_text (settings_of call) free signed (level_of l))) (page out.new result) }
{
    let space = call.has(TypeFormatterFlags::SPACE_BEFORE_POINTER);
    let a = emit_const(out, p, l.pointee, free);
    let b = pen::text_if(out, a, is_spaced(space, free, signed, l.pointee), b" ");
    let c = emit_sign(out, b, l.mode);
    pen::text_if(out, c, l.constant, b" const")
}

// All levels, the innermost first.
pub fn emit_attributes(
    out: &mut [u8],
    p: Pen,
    call: Call,
    o: Levels,
    free: bool,
    signed: bool,
) -> Pen
    ensures { Wrote (page out.old p) (writing (levels (settings_of call) free signed (levels_of o))) (page out.new result) }
{
    let mut q = p;
    let mut f = free;
    let mut s = signed;
    for i in o.left..96 {
        let l = PtrAttributes::from(o.items[i]);
        q = emit_level(out, q, call, f, s, l);
        f = true;
        s = !l.constant;
    }
    q
}
