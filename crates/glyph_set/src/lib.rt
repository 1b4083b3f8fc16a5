// A set of glyphs, one bit a glyph, in 8,192 lent bytes: the counterpart of `IntSet`. Runs are counted as glyphs come in: a glyph that joins
// none of its neighbours starts a run, and one that joins both makes one run of two. Or they are counted at once, by the word.
#![tactic(auto)]

pub mod words;

ghost use Rattle.std.specs.Prelude.{◌≡◌, ◌≤◌, length};
ghost use Rattle.folds.specs.Folds.{before};
ghost use Rattle.folds.specs.Moments.{came, left};
ghost use Rattle.glyph_set.specs.GlyphSet.{member, mark, blank, present, behind, joined};

// Whether the glyph is in the set.
pub fn contains(set: &[u8], glyph: u16) -> bool
    requires { 8192 ≤ length set.now }
    ensures { result ≡ member set.now glyph }
{
    let at = usize::from(glyph / 8);
    (set[at] >> (glyph % 8)) & 1 == 1
}

// Puts the glyph in.
pub fn insert(set: &mut [u8], glyph: u16)
    requires { 8192 ≤ length set.old }
    ensures { left set ≡ mark (came set) glyph }
{
    let at = usize::from(glyph / 8);
    set[at] |= 1 << (glyph % 8);
}

// Empties the glyph's byte: done for each glyph that was put in, it empties the set.
pub fn clear_byte(set: &mut [u8], glyph: u16)
    requires { 8192 ≤ length set.old }
    ensures { left set ≡ blank (came set) glyph }
{
    let at = usize::from(glyph / 8);
    set[at] = 0;
}

// How many of the glyph's two neighbours are in the set: with a glyph more there are 1 - `joined` runs more.
pub fn joined(set: &[u8], glyph: u16) -> usize
    requires { 8192 ≤ length set.now }
    ensures { result ≡ joined set.now glyph }
{
    present_before(set, glyph) + present_behind(set, glyph)
}

// The glyph before, which 0 has none of.
fn present_before(set: &[u8], glyph: u16) -> usize
    requires { 8192 ≤ length set.now }
    ensures { result ≡ before (present set.now) glyph }
{
    if glyph == 0 {
        return 0;
    }
    present(set, glyph - 1)
}

// The glyph behind, which 65,535 has none of.
fn present_behind(set: &[u8], glyph: u16) -> usize
    requires { 8192 ≤ length set.now }
    ensures { result ≡ behind set.now glyph }
{
    if glyph == 65535 {
        return 0;
    }
    present(set, glyph + 1)
}

// 1 where the glyph is in the set, else 0.
fn present(set: &[u8], glyph: u16) -> usize
    requires { 8192 ≤ length set.now }
    ensures { result ≡ present set.now glyph }
{
    usize::from(contains(set, glyph))
}
