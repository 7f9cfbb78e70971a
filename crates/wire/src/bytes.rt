// Slices as a whole: zeros in all of one, and the bytes of one over those of another.
ghost use Rattle.std.specs.Prelude.{◌≡◌, length, replicate};

// Zeros in all of a slice. Each refused call ends in it.
pub fn clear(out: &mut [u8])
    ensures { out.new ≡ replicate (length out.old) 0 }
{
    out.fill(0);
}

// Bytes over as many others. A loop, which becomes a memcpy: `copy_from_slice` of the library would be a memmove.
pub fn copy(to: &mut [u8], s: &[u8])
    requires { length to.old ≡ length s.now }
    ensures { to.new ≡ s.now }
{
    for i in 0..s.len() {
        to[i] = s[i];
    }
}
