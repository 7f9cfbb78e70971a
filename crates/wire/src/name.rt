// Zero-ended names, as places of the slice that they were read in.
ghost use Rattle.std.specs.Prelude.{◌≡◌, ◌+◌, ◌≤◌, length};
ghost use Rattle.wire.specs.Name.{zero_among, name_end, name_answer};

// The bytes of a name: where they start and how many there are, without the closing zero.
#[derive(Clone, Copy, Debug, PartialEq, Eq)]
pub struct Name {
    pub start: usize,
    pub len: usize,
}

// Whether a zero stands among eight bytes. The tests are joined without a branch, so that they are made at once.
#[tactic(auto, unfolding(crate::specs::Name::zero_among))]
fn zero_in_eight(s: &[u8], at: usize) -> bool
    requires { at + 8 ≤ length s.now }
    ensures { result ≡ zero_among 8 s.now at }
{
    let mut zero = false;
    for i in 0..8 {
        zero |= s[at + i] == 0;
    }
    zero
}

// Past eight bytes at a time as long as none of them is zero: a name that starts there ends where the one that was asked for does.
fn skip_eights(s: &[u8], at: usize) -> usize
    ensures { (at ≤ result) × (name_end s.now at ≡ name_end s.now result) }
{
    let eights = s.len().saturating_sub(at) / 8;
    for i in 0..eights {
        let end = at + 8 * i;
        if zero_in_eight(s, end) {
            return end;
        }
    }
    at + 8 * eights
}

// The name at a place, up to the first zero.
#[tactic(auto, using(crate::proofs::Laws::zero_here, crate::proofs::Laws::zero_later, crate::proofs::Laws::zero_none), unfolding(crate::specs::Name::name))]
#[inline(always)]
pub fn name_at(s: &[u8], at: usize) -> Option<Name>
    ensures { result ≡ name_answer s.now at }
{
    let from = skip_eights(s, at);
    for end in from..s.len() {
        if s[end] == 0 {
            return Some(Name {
                start: at,
                len: end - at,
            });
        }
    }
    None
}
