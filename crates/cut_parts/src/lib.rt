// The parts of a table's covered glyphs that its new tables have: where each ends, and each in order by glyph.
#![tactic(auto)]

ghost use Rattle.std.specs.Prelude.{◌≡◌, ◌+◌, ◌≤◌, ◌<◌, length, get_or, ltb};
ghost use Rattle.std.specs.List.{take_while};
ghost use Rattle.folds.specs.Lists.{put};
ghost use Rattle.folds.specs.Moments.{came, left};
ghost use Rattle.cut_parts.specs.Tables.{PartEnd};
ghost use Rattle.cut_parts.specs.Order.{glyph_order, item_order, Sorted, PartsOrdered};

use glyph_sort::sort_pairs;

// How many classes at the front lie below `hi`.
fn count_front(classes: &[u16], hi: u16) -> usize
    ensures { result ≡ length (take_while (λ k. ltb k hi) classes.now) }
{
    classes.iter().take_while(|k| **k < hi).count()
}

// Where the part of the classes from `from` on that lie below `hi` ends.
pub fn part_end(classes: &[u16], from: usize, hi: u16) -> usize
    requires { from ≤ length classes.now }
    ensures { PartEnd classes.now from hi result }
{
    from + count_front(&classes[from..], hi)
}

// The cut behind cut j, or the count of items where j is the last.
pub fn cut_after(cuts: &[u16], j: usize, count: u16) -> u16
    requires { j < length cuts.now }
    ensures { result ≡ get_or cuts.now (j + 1) count }
{
    if j + 1 < cuts.len() {
        return cuts[j + 1];
    }
    count
}

// Puts the pairs from `a` up to `b` in order by glyph.
fn order_part(glyphs: &mut [u16], classes: &mut [u16], a: usize, b: usize)
    requires { (a ≤ b) × (b ≤ length glyphs.old) × (length classes.old ≡ length glyphs.old) }
    ensures glyphs_value { left glyphs ≡ put (came glyphs) a (glyph_order (came glyphs) (came classes) a b) }
    ensures classes_value { left classes ≡ put (came classes) a (item_order (came glyphs) (came classes) a b) }
{
    sort_pairs(&mut glyphs[a..b], &mut classes[a..b]);
}

// Puts the part of each table back in order by glyph, where glyphs and classes are in order by class.
pub fn order_parts(glyphs: &mut [u16], classes: &mut [u16], cuts: &[u16], count: u16)
    requires { Sorted glyphs.old classes.old cuts.now count }
    ensures { PartsOrdered (came glyphs) (came classes) cuts.now count (left glyphs) (left classes) }
{
    let mut at = 0;
    for cut in cuts {
        let end = part_end(classes, at, *cut);
        order_part(glyphs, classes, at, end);
        at = end;
    }
    let end = part_end(classes, at, count);
    order_part(glyphs, classes, at, end);
}
