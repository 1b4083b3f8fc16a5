// Lent buffers: bytes zeroed, bytes copied within one list, and numbers counted up.
#![tactic(auto)]

ghost use Rattle.std.specs.Prelude.{◌≡◌, ◌+◌, ◌≤◌, length, replicate};
ghost use Rattle.folds.specs.Folds.{upto};
ghost use Rattle.folds.specs.Lists.{put, part};
ghost use Rattle.folds.specs.Moments.{came, left};

// Writes `count` zeros from byte `at` on.
pub fn zero_bytes(s: &mut [u8], at: usize, count: usize)
    requires { at + count ≤ length s.old }
    ensures { left s ≡ put (came s) at (replicate count 0) }
{
    s[at..at + count].fill(0);
}

// Copies `count` bytes from byte `from` on to byte `at` on. The two runs may overlap.
pub fn copy_bytes(s: &mut [u8], from: usize, at: usize, count: usize)
    requires from_in_bounds { from + count ≤ length s.old }
    requires at_in_bounds { at + count ≤ length s.old }
    ensures { left s ≡ put (came s) at (part (came s) from (from + count)) }
{
    s.copy_within(from..from + count, at);
}

// Writes each number's index.
pub fn number_u16(s: &mut [u16])
    requires { length s.old ≤ 65536 }
    ensures { left s ≡ upto (λ k. k) (length (came s)) }
{
    for (k, x) in s.iter_mut().enumerate() {
        *x = k as u16;
    }
}
