// Numbers, the highest digit first.
ghost use Rattle.std.specs.Prelude.{◌≡◌, ◌<◌, ◌≤◌, length, drop};
ghost use Rattle.rules.specs.Text;
ghost use Rattle.pen.specs.Page.{page, Wrote, writing};

use pen::Pen;

// From ten on a digit stands 39 further: that far is `a` from the byte behind `9`.
fn digit(n: u64) -> u8
    requires { n < 16 }
    ensures { result ≡ Text.digit n }
{
    let n = n as u8;
    48 + n + n / 10 * 39
}

// The digits of a number to a base, at the end of a buffer, in at most so many as it has room for: where they start.
fn digits(buf: &mut [u8], base: u64, n: u64) -> usize
    requires { (1 < base) × (base ≤ 16) }
    ensures { (result ≤ length buf.new) × (drop result buf.new ≡ Text.numeral base (length buf.old) n) }
{
    let mut rest = n;
    for at in (0..buf.len()).rev() {
        buf[at] = digit(rest % base);
        if rest < base {
            return at;
        }
        rest /= base;
    }
    0
}

// A count in decimal at the end of 20 bytes: where it starts.
#[tactic(auto, unfolding(rules::specs::Text::decimal))]
pub fn decimal_in(buf: &mut [u8], n: u64) -> usize
    requires { length buf.old ≡ 20 }
    ensures { (result ≤ 20) × (drop result buf.new ≡ Text.decimal n) }
{
    digits(buf, 10, n)
}

// A number to a base, in at most so many digits.
fn in_base<const DIGITS: usize>(out: &mut [u8], p: Pen, base: u64, n: u64) -> Pen
    requires { (1 < base) × (base ≤ 16) × (DIGITS ≤ 20) }
    ensures { Wrote (page out.old p) (writing (Text.numeral base DIGITS n)) (page out.new result) }
{
    let mut buf = [0; DIGITS];
    let at = digits(&mut buf, base, n);
    let all = &buf[..];
    pen::text(out, p, &all[at..])
}

#[tactic(auto, unfolding(rules::specs::Text::hex))]
pub fn hex(out: &mut [u8], p: Pen, n: u32) -> Pen
    ensures { Wrote (page out.old p) (writing (Text.hex n)) (page out.new result) }
{
    in_base::<8>(out, p, 16, u64::from(n))
}

#[tactic(auto, unfolding(rules::specs::Text::decimal))]
pub fn decimal(out: &mut [u8], p: Pen, n: u64) -> Pen
    ensures { Wrote (page out.old p) (writing (Text.decimal n)) (page out.new result) }
{
    in_base::<20>(out, p, 10, n)
}
