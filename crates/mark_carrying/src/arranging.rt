// The marks with their classes, as the new objects and links are written from them: each table's marks together, and in order.
ghost use Rattle.std.specs.Prelude.{List, ℕ};
ghost use Rattle.folds.specs.Moments.{came, left};
ghost use Rattle.store_rules.specs.Store.{lent};
ghost use Rattle.cut_parts.specs.Order.{Arranged};
ghost use Rattle.mark_order.specs.Marks.{entries_by};
ghost use Rattle.mark_carrying.specs.Arranging.{MarksNumbered, Arranging, ArrangesGlyphs, ArrangesPlaces};

use buffers::number_u16;
use cut_parts::order_parts;
use mark_checks::MarkTable;
use mark_order::order_marks;
use ot_coverage_reader::glyphs_into;
use store_reader::bytes_of;

// Puts marks, which come as ascending numbers, together by the tables that `cuts` make of their classes, and writes the classes beside them.
// `glyph_set` is scratch, which may hold anything.
fn arrange(
    array: &[u8],
    numbers: &mut [u16],
    classes: &mut [u16],
    glyph_set: &mut [u8],
    cuts: &[u16],
    class_count: u16,
)
    requires { MarksNumbered array.now numbers.old classes.old glyph_set.old cuts.now class_count }
    ensures { Arranged (left numbers) (left classes) cuts.now class_count (entries_by array.now (came numbers)) }
{
    order_marks(array, numbers, classes, glyph_set);
    order_parts(numbers, classes, cuts, class_count);
}

// Arranges the marks of a table that is cut, by their glyphs; these stand at the front of `glyphs`, which has room for all covered ones.
pub fn arrange_glyphs(
    data: &[u8],
    objects: &[u32],
    opened: MarkTable,
    glyphs: &mut [u16],
    classes: &mut [u16],
    glyph_set: &mut [u8],
    cuts: &[u16],
)
    requires { (l c : List ℕ) × (t : ℕ)
        × Arranging (lent «data».now objects.now l c) t opened opened.glyphs glyphs.old classes.old glyph_set.old cuts.now }
    ensures { ArrangesGlyphs «data».now objects.now opened (came glyphs) (came classes) (came glyph_set) cuts.now (left glyphs) (left classes) }
{
    let coverage = opened.coverage;
    let count = opened.marks.count as usize;
    glyphs_into(
        bytes_of(data, objects, coverage.object as usize),
        coverage.header,
        glyphs,
    );
    arrange(
        bytes_of(data, objects, opened.marks.object as usize),
        &mut glyphs[0..count],
        classes,
        glyph_set,
        cuts,
        opened.classes,
    );
}

// The same, by their places in the mark array.
pub fn arrange_places(
    data: &[u8],
    objects: &[u32],
    opened: MarkTable,
    places: &mut [u16],
    classes: &mut [u16],
    glyph_set: &mut [u8],
    cuts: &[u16],
)
    requires { (l c : List ℕ) × (t : ℕ)
        × Arranging (lent «data».now objects.now l c) t opened opened.marks.count places.old classes.old glyph_set.old cuts.now }
    ensures { ArrangesPlaces «data».now objects.now opened (came places) (came classes) (came glyph_set) cuts.now (left places) (left classes) }
{
    number_u16(places);
    arrange(
        bytes_of(data, objects, opened.marks.object as usize),
        places,
        classes,
        glyph_set,
        cuts,
        opened.classes,
    );
}
