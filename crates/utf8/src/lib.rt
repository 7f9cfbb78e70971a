// UTF-8: how far bytes are well-formed, and the part at a place, by table 3-7 of the Unicode Standard.
#![tactic(auto)]

ghost use Rattle.std.specs.Prelude.{◌≡◌, ◌+◌, ◌≤◌, ◌<◌, length, drop, nat_lt};
ghost use Rattle.std.specs.Option.{option_copied};
ghost use Rattle.std.specs.List.{list_all};
ghost use Rattle.utf8.specs.Utf8.{behind, fitting};
ghost use Rattle.utf8.specs.Parts.{part_at, run};

// A range of bytes, both ends in it.
#[derive(Clone, Copy)]
pub struct Range {
    pub low: u8,
    pub high: u8,
}

// Where most bytes behind a first one lie.
const TAIL: Range = Range {
    low: 0x80,
    high: 0xbf,
};

// What may stand behind a first byte that is not ASCII: after E0, ED, F0 and F4 the range of the next byte is narrower. None for a byte that begins no
// sequence.
#[rattlefmt::skip]
fn ranges_behind(b: u8) -> Option<&'static [Range]>
    requires { 128 ≤ b }
    ensures { option_copied result ≡ behind b }
{
    match b {
        0xc2..=0xdf => Some(&[TAIL]),
        0xe0 => Some(&[Range { low: 0xa0, high: 0xbf }, TAIL]),
        0xe1..=0xec => Some(&[TAIL, TAIL]),
        0xed => Some(&[Range { low: 0x80, high: 0x9f }, TAIL]),
        0xee..=0xef => Some(&[TAIL, TAIL]),
        0xf0 => Some(&[Range { low: 0x90, high: 0xbf }, TAIL, TAIL]),
        0xf1..=0xf3 => Some(&[TAIL, TAIL, TAIL]),
        0xf4 => Some(&[Range { low: 0x80, high: 0x8f }, TAIL, TAIL]),
        _ => None,
    }
}

// How many bytes, one after another, stand each in its range.
fn following(s: &[u8], ranges: &[Range]) -> usize
    ensures { result ≡ fitting ranges.now s.now }
{
    ranges
        .iter()
        .zip(s)
        .take_while(|(r, b)| r.low <= **b && **b <= r.high)
        .count()
}

// The part at a place: how long a well-formed sequence is, or else what is ill-formed there.
pub fn part_at(s: &[u8], at: usize) -> Result<usize, usize>
    requires { at < length s.now }
    ensures { result ≡ part_at s.now at }
{
    let b = s[at];
    if b < 0x80 {
        return Ok(1);
    }
    let ranges = ranges_behind(b).ok_or(1usize)?;
    let n = following(&s[at + 1..], ranges);
    if n == ranges.len() {
        Ok(n + 1)
    } else {
        Err(n + 1)
    }
}

// Whether eight bytes are ASCII. The tests are joined without a branch, so that they are made at once.
fn is_ascii(eight: &[u8; 8]) -> bool
    ensures { result ≡ list_all (λ b. nat_lt b 0x80) eight.now }
{
    eight.iter().fold(true, |ascii, b| ascii & (*b < 0x80))
}

// Past eight bytes at a time as long as all of them are ASCII.
fn skip_ascii(s: &[u8], from: usize) -> usize
    ensures { (from ≤ result) × (from + run (drop from s.now) ≡ result + run (drop result s.now)) }
{
    // Asked first, for ill-formed bytes often stand one behind another, and a run begins at each.
    if from < s.len() && 0x80 <= s[from] {
        return from;
    }
    let Some(rest) = s.get(from..) else {
        return from;
    };
    let (eights, _) = rest.as_chunks::<8>();
    from + 8 * eights.iter().take_while(|eight| is_ascii(eight)).count()
}

// Where the well-formed bytes from a place on end.
pub fn run_end(s: &[u8], from: usize) -> usize
    ensures { result ≡ from + run (drop from s.now) }
{
    let mut at = skip_ascii(s, from);
    // Kept: each step is as long as its part, which no iterator of the library gives.
    while at < s.len() {
        let Ok(len) = part_at(s, at) else {
            return at;
        };
        at += len;
    }
    at
}
