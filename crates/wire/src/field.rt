// Little-endian numbers at a place of a slice. A field that is not wholly inside the slice is none.
ghost use Rattle.std.specs.Prelude.{◌≡◌, ◌+◌, ◌≤◌, ◌<◌, ℕ, length};
ghost use Rattle.std.proofs.Common.{rules};
ghost use Rattle.wire.specs.Field.{number, field};

// A number that a field holds: how many bytes it has there, and which of its values a number of so many bytes is.
pub trait Little: Copy + Into<u64> {
    const WIDTH: usize;

    ghost WIDTH: { ℕ };

    ghost of: { ℕ → Self };

    // The one at a place, where all its bytes are inside.
    fn read(s: &[u8], at: usize) -> Self
        requires { at + WIDTH ≤ length s.now }
        ensures { result ≡ of (number WIDTH s.now at) };

    // It has some bytes, and widens to the number that they make.
    ghost some: { 0 < WIDTH };

    ghost back: { (n m : ℕ) → Self.converts (of n) m → m ≡ n };
}

impl Little for u8 {
    const WIDTH: usize = 1;

    ghost WIDTH = { 1 };

    ghost of = { λ n. n };

    ghost some = { Prim.search rules };

    ghost back = { λ n m e. e };

    #[tactic(auto, unfolding(crate::specs::Field::number))]
    fn read(s: &[u8], at: usize) -> u8 {
        u8::from_le_bytes([s[at]])
    }
}

impl Little for u16 {
    const WIDTH: usize = 2;

    ghost WIDTH = { 2 };

    ghost of = { λ n. n };

    ghost some = { Prim.search rules };

    ghost back = { λ n m e. e };

    #[tactic(auto, unfolding(crate::specs::Field::number))]
    fn read(s: &[u8], at: usize) -> u16 {
        u16::from_le_bytes([s[at], s[at + 1]])
    }
}

impl Little for u32 {
    const WIDTH: usize = 4;

    ghost WIDTH = { 4 };

    ghost of = { λ n. n };

    ghost some = { Prim.search rules };

    ghost back = { λ n m e. e };

    #[tactic(auto, unfolding(crate::specs::Field::number))]
    fn read(s: &[u8], at: usize) -> u32 {
        u32::from_le_bytes([s[at], s[at + 1], s[at + 2], s[at + 3]])
    }
}

impl Little for u64 {
    const WIDTH: usize = 8;

    ghost WIDTH = { 8 };

    ghost of = { λ n. n };

    ghost some = { Prim.search rules };

    ghost back = { λ n m e. e };

    #[tactic(auto, unfolding(crate::specs::Field::number))]
    fn read(s: &[u8], at: usize) -> u64 {
        u64::from_le_bytes([
            s[at],
            s[at + 1],
            s[at + 2],
            s[at + 3],
            s[at + 4],
            s[at + 5],
            s[at + 6],
            s[at + 7],
        ])
    }
}

// The number at a place, where the whole field is inside.
#[tactic(auto, unfolding(crate::specs::Field::field))]
pub fn field_at<T: Little>(s: &[u8], at: usize) -> Option<T>
    ensures { result ≡ field T.WIDTH s.now at (λ n. Some (T.of n)) None }
{
    if s.len().saturating_sub(at) < T::WIDTH {
        return None;
    }
    Some(T::read(s, at))
}
