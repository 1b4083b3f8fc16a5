// The scratch that a call is lent: check 6, and the zeros that it leaves. The Rust text allocates what it needs instead.
#![tactic(auto)]

ghost use Rattle.std.specs.Prelude.{◌≡◌};
ghost use Rattle.call_rules.specs.Scratch.{lengths_short, cleared};
ghost use Rattle.call_rules.specs.Moments.{scratch_came, scratch_left};

use call_rules::Lengths;

// Check 6: whether one is too short for a store of so many objects and a table of so many covered glyphs and items.
#[tactic(auto, unfolding(call_rules::specs::Scratch::lengths_short))]
pub fn is_short(lent: Lengths, objects: u32, glyphs: usize, items: u16) -> bool
    ensures { result ≡ lengths_short lent objects glyphs items }
{
    lent.walk < 2 * (objects as usize)
        || lent.glyph_set < 8192
        || lent.glyphs < glyphs
        || lent.classes < glyphs
        || lent.cuts < (items as usize)
}

// Zeroes all of it.
pub fn clear_scratch(
    walk: &mut [u32],
    glyph_set: &mut [u8],
    glyphs: &mut [u16],
    classes: &mut [u16],
    cuts: &mut [u16],
)
    ensures { scratch_left walk glyph_set glyphs classes cuts ≡ cleared (scratch_came walk glyph_set glyphs classes cuts) }
{
    walk.fill(0);
    glyph_set.fill(0);
    glyphs.fill(0);
    classes.fill(0);
    cuts.fill(0);
}
