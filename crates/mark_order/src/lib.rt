// The marks of a table put in the order of their classes: by their glyphs, or by their places in the mark array. The counterpart of
// `get_class_mark_indices_map`.
#![tactic(auto)]

ghost use Rattle.std.specs.Prelude.{◌≡◌, ℕ, ◌+◌, ◌*◌, ◌≤◌, ◌<◌, length, get_or};
ghost use Rattle.folds.specs.Folds.{upto};
ghost use Rattle.folds.specs.Moments.{came, left};
ghost use Rattle.ot_layouts.specs.MarkBasePos.{mark_class};
ghost use Rattle.glyph_sort.specs.ByClass.{ByClass};
ghost use Rattle.mark_order.specs.Marks.{entries_by, places_by};

use buffers::number_u16;
use glyph_by_class::order_by_class;
use ot_wire::u16_at;

// Writes the class of each mark of a mark array.
fn classes_into(array: &[u8], classes: &mut [u16])
    requires { 2 + 4 * length classes.old ≤ length array.now }
    ensures { left classes ≡ upto (mark_class array.now) (length (came classes)) }
{
    for (i, class) in classes.iter_mut().enumerate() {
        *class = u16_at(array, 2 + 4 * i);
    }
}

// Puts the marks, which come as ascending numbers, in the order of their classes, and writes these beside them. `glyph_set` is scratch, which may
// hold anything.
pub fn order_marks(array: &[u8], numbers: &mut [u16], classes: &mut [u16], glyph_set: &mut [u8])
    requires classes_len { length classes.old ≡ length numbers.old }
    requires numbers_in_bounds { 2 + 4 * length numbers.old ≤ length array.now }
    requires by_index { (i j : ℕ) → i < j → j < length numbers.old → get_or numbers.old i 0 < get_or numbers.old j 0 }
    requires in_bounds { 8192 ≤ length glyph_set.old }
    ensures { ByClass (entries_by array.now (came numbers)) (left numbers) (left classes) }
{
    classes_into(array, classes);
    order_by_class(classes, numbers, glyph_set);
}

// The same of the marks' places in the mark array.
pub fn order_places(array: &[u8], places: &mut [u16], classes: &mut [u16], glyph_set: &mut [u8])
    requires classes_len { (length classes.old ≡ length places.old) × (length places.old < 65536) }
    requires places_in_bounds { 2 + 4 * length places.old ≤ length array.now }
    requires in_bounds { 8192 ≤ length glyph_set.old }
    ensures { ByClass (places_by array.now (length (came places))) (left places) (left classes) }
{
    number_u16(places);
    order_marks(array, places, classes, glyph_set);
}
