// Numbers in font tables: sixteen bits, big-endian, read at a place and written at a place.
#![tactic(auto)]

ghost use Rattle.std.specs.Prelude.{◌≡◌, ◌+◌, ◌<◌, length};
ghost use Rattle.folds.specs.Lists.{put};
ghost use Rattle.ot_layouts.specs.Numbers.{u16_at, be16};
ghost use Rattle.folds.specs.Moments.{came, left};

// The sixteen bits at `i` and `i + 1`.
pub fn u16_at(s: &[u8], i: usize) -> u16
    requires { i + 1 < length s.now }
    ensures { result ≡ u16_at s.now i }
{
    u16::from_be_bytes([s[i], s[i + 1]])
}

// Writes the two bytes of `v` at `at`.
pub fn put_u16(out: &mut [u8], at: usize, v: u16)
    requires { at + 1 < length out.old }
    ensures { left out ≡ put (came out) at (be16 v) }
{
    out[at..at + 2].copy_from_slice(&v.to_be_bytes());
}
