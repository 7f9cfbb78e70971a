// Names: those that stand in a stream, which are written as they are shown, and those that are given.
ghost use Rattle.std.specs.Prelude.{◌≡◌};
ghost use Rattle.utf8.specs.Utf8.{shown};
ghost use Rattle.rules.specs.Text.{function_name, primitive_name};
ghost use Rattle.rules.specs.Record.{name_at};
ghost use Rattle.pen.specs.Page.{page, Wrote, writing};

use pen::Pen;
use wire::name::Name;

// The bytes of a name that stands in a stream: the part of them that is there.
#[tactic(auto, unfolding(rules::specs::Record::name_at))]
pub fn name_of(s: &[u8], n: Name) -> &[u8]
    ensures { result.now ≡ name_at s.now n }
{
    let rest = &s[n.start.min(s.len())..];
    &rest[..n.len.min(rest.len())]
}

// A name of a record: each run of well-formed bytes at once, and U+FFFD for each part between them.
pub fn emit_shown(out: &mut [u8], p: Pen, name: &[u8]) -> Pen
    ensures { Wrote (page out.old p) (writing (shown name.now)) (page out.new result) }
{
    let len = name.len();
    let mut q = p;
    let mut at = 0;
    // Kept: only the turn itself finds how many bytes the next one is further.
    while at < len {
        let end = utf8::run_end(name, at);
        q = pen::text(out, q, &name[at..end]);
        if end == len {
            return q;
        }
        q = pen::text(out, q, b"\xef\xbf\xbd");
        // A run ends before a part that is no sequence.
        let Err(len) = utf8::part_at(name, end) else {
            return q;
        };
        at = end + len;
    }
    q
}

// A function's name that stands in a record.
pub fn emit_shown_str(out: &mut [u8], p: Pen, name: &[u8]) -> Pen
    ensures { Wrote (page out.old p) (writing (function_name (shown name.now))) (page out.new result) }
{
    if name.is_empty() {
        return emit_name_str(out, p, name);
    }
    emit_shown(out, p, name)
}

// A function's name that the caller gives: byte for byte.
#[tactic(auto, unfolding(rules::specs::Text::function_name))]
pub fn emit_name_str(out: &mut [u8], p: Pen, name: &[u8]) -> Pen
    ensures { Wrote (page out.old p) (writing (function_name name.now)) (page out.new result) }
{
    if name.is_empty() {
        return pen::text(out, p, b"<name omitted>");
    }
    pen::text(out, p, name)
}

// The name of a primitive's kind.
pub fn emit_kind(out: &mut [u8], p: Pen, code: u8) -> Pen
    ensures { Wrote (page out.old p) (writing (primitive_name code)) (page out.new result) }
{
    pen::text(out, p, primitives::kind_name(code))
}
