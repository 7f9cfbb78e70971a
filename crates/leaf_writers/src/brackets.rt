// The levels of an array, in brackets.
ghost use Rattle.std.specs.Prelude.{◌≡◌, ◌≤◌};
ghost use Rattle.rules.specs.Text;
ghost use Rattle.pen.specs.Page.{page, Wrote, writing};
ghost use Rattle.context.specs.Context.{sizes_of};
ghost use Rattle.leaf_writers.specs.Signs.{inside};

use crate::numbers::decimal;
use context::levels::Dimensions;
use pen::Pen;

// How often a size is in so many bytes; nothing for the size 0.
#[tactic(auto, unfolding(rules::specs::Text::bracket))]
fn emit_bracket(out: &mut [u8], p: Pen, bytes: u64, size: u64) -> Pen
    ensures { Wrote (page out.old p) (writing (Text.bracket bytes size)) (page out.new result) }
{
    if size == 0 {
        return pen::text(out, p, b"[]");
    }
    let q = pen::text(out, p, b"[");
    let r = decimal(out, q, bytes / size);
    pen::text(out, r, b"]")
}

// The byte size of what a level's elements are: that of the next level in, or behind the last of these the size that is given.
#[tactic(auto, unfolding(crate::specs::Signs::inside))]
fn size_inside(items: &[u64; 32], left: usize, at: usize, size: u64) -> u64
    requires { at ≤ 32 }
    ensures { result ≡ inside items.now left size at }
{
    if left < at { items[at - 1] } else { size }
}

// The levels of an array whose elements have so many bytes, the outermost first.
pub fn emit_brackets(out: &mut [u8], p: Pen, o: Dimensions, size: u64) -> Pen
    ensures { Wrote (page out.old p) (writing (Text.brackets size (sizes_of o))) (page out.new result) }
{
    let mut q = p;
    for n in (o.left..32).rev() {
        q = emit_bracket(out, q, o.items[n], size_inside(&o.items, o.left, n, size));
    }
    q
}
