// The marks that stand for what is not there, or is not written.
ghost use Rattle.std.specs.Prelude.{◌++◌};
ghost use Rattle.rules.specs.Text;
ghost use Rattle.rules.specs.Text.{missing_mark, unimplemented_mark, unhandled_type, unhandled_scope};
ghost use Rattle.pen.specs.Page.{page, Wrote, Caught, writing};
ghost use Rattle.leaf_writers.specs.Marks.{mark_trace};

use crate::numbers::hex;
use pen::{Pen, Stop};
use streams::refusal::Refusal;

// A number in hexadecimal between two texts.
fn around(out: &mut [u8], p: Pen, before: &[u8], n: u32, behind: &[u8]) -> Pen
    ensures { Wrote (page out.old p) (writing (before.now ++ (Text.hex n ++ behind.now))) (page out.new result) }
{
    let a = pen::text(out, p, before);
    let b = hex(out, a, n);
    pen::text(out, b, behind)
}

// Its texts by themselves, since it is the mark that is met most: what is copied is known to be so long.
pub fn missing(out: &mut [u8], p: Pen, index: u32) -> Pen
    ensures { Wrote (page out.old p) (writing (missing_mark index)) (page out.new result) }
{
    let a = pen::text(out, p, b"<missing type 0x");
    let b = hex(out, a, index);
    pen::text(out, b, b">")
}

#[tactic(auto, unfolding(rules::specs::Text::unimplemented_mark))]
pub fn unimplemented(out: &mut [u8], p: Pen, kind: u32) -> Pen
    ensures { Wrote (page out.old p) (writing (unimplemented_mark kind)) (page out.new result) }
{
    around(out, p, b"<unimplemented type kind 0x", kind, b">")
}

#[tactic(auto, unfolding(rules::specs::Text::unhandled_type))]
pub fn unhandled_type(out: &mut [u8], p: Pen, kind: u16) -> Pen
    ensures { Wrote (page out.old p) (writing (unhandled_type kind)) (page out.new result) }
{
    around(out, p, b"unhandled type /* 0x", u32::from(kind), b" */")
}

#[tactic(auto, unfolding(rules::specs::Text::unhandled_scope))]
pub fn unhandled_scope(out: &mut [u8], p: Pen, kind: u16) -> Pen
    ensures { Wrote (page out.old p) (writing (unhandled_scope kind)) (page out.new result) }
{
    around(out, p, b"<unhandled id scope 0x", u32::from(kind), b">::")
}

// A text that ended where an index was missing goes on after its mark.
pub fn mark_missing(out: &mut [u8], p: Pen) -> Pen
    ensures { Caught (page out.old p) (λ i. writing (missing_mark i)) (page out.new result) }
{
    match pen::stop_of(p) {
        Stop::Missing(index) => missing(out, pen::resume(p), index),
        _ => p,
    }
}

// What could not be read by itself: its mark, or the refusal.
#[tactic(auto, unfolding(crate::specs::Marks::mark_trace))]
pub fn emit_mark(out: &mut [u8], p: Pen, f: Refusal) -> Pen
    ensures { Wrote (page out.old p) (mark_trace f) (page out.new result) }
{
    match f {
        Refusal::Missing(index) => missing(out, p, index),
        Refusal::UnlistedKind(kind) => unimplemented(out, p, kind),
        _ => pen::refuse(out, p, f),
    }
}
