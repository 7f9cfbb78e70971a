// Strings of ids: one that names an anonymous namespace is written as such. Its bytes are ASCII, so it is told by the bytes of the record.
ghost use Rattle.std.specs.Prelude.{◌≡◌, Some, None};
ghost use Rattle.utf8.specs.Utf8.{shown};
ghost use Rattle.rules.specs.Text.{hex_digit, hex_below, hex_number, plus_number, is_anonymous_namespace, string_text};
ghost use Rattle.pen.specs.Page.{page, Wrote, writing};

use crate::names::emit_shown;
use pen::Pen;

// The value of a hexadecimal digit of either case.
#[tactic(auto, unfolding(rules::specs::Text::hex_digit))]
fn hex_value(b: u8) -> Option<u8>
    ensures { result ≡ hex_digit b Some None }
{
    match b {
        b'0'..=b'9' => Some(b - b'0'),
        b'A'..=b'F' => Some(b - b'A' + 10),
        b'a'..=b'f' => Some(b - b'a' + 10),
        _ => None,
    }
}

// Whether all bytes are hexadecimal digits, of a number below 2^32.
fn hex_below(s: &[u8]) -> bool
    ensures { result ≡ hex_below 0 s.now }
{
    let mut n: u64 = 0;
    for &b in s {
        let Some(d) = hex_value(b) else {
            return false;
        };
        n = n * 16 + u64::from(d);
        if n >= 4_294_967_296 {
            return false;
        }
    }
    true
}

#[tactic(auto, unfolding(rules::specs::Text::hex_number))]
fn hex_number(s: &[u8]) -> bool
    ensures { result ≡ hex_number s.now }
{
    !s.is_empty() && hex_below(s)
}

// The same, with one `+` allowed before the digits.
#[tactic(auto, unfolding(rules::specs::Text::plus_number))]
fn plus_number(s: &[u8]) -> bool
    ensures { result ≡ plus_number s.now }
{
    match s {
        [b'+', rest @ ..] => hex_number(rest),
        [_, ..] => hex_number(s),
        [] => false,
    }
}

// `?A0x` and digits.
#[tactic(auto, unfolding(rules::specs::Text::is_anonymous_namespace, rules::specs::Text::same_bytes))]
pub fn is_anonymous_namespace(s: &[u8]) -> bool
    ensures { result ≡ is_anonymous_namespace s.now }
{
    match s {
        [b'?', b'A', b'0', b'x', rest @ ..] => plus_number(rest),
        _ => false,
    }
}

pub fn emit_string(out: &mut [u8], p: Pen, s: &[u8]) -> Pen
    ensures { Wrote (page out.old p) (writing (string_text (shown s.now))) (page out.new result) }
{
    if is_anonymous_namespace(s) {
        return pen::text(out, p, b"`anonymous namespace'");
    }
    emit_shown(out, p, s)
}
