// What a split at given places needs beside what is in use: its new objects are counted from the marks, arranged by table, and its new links
// from the links of the old arrays.
ghost use Rattle.std.specs.Prelude.{◌≡◌, true, List, ℕ, ◌+◌, ◌≤◌, ◌<◌, get_or};
ghost use Rattle.folds.specs.Lists.{part};
ghost use Rattle.folds.specs.Moments.{came, left};
ghost use Rattle.store_rules.specs.Store.{Store, lent, sound};
ghost use Rattle.store_rules.specs.SlotLinks.{links_from};
ghost use Rattle.store_rules.specs.Moments.{store_came_with, store_now_with};
ghost use Rattle.store_reader.specs.Rows.{InOrder};
ghost use Rattle.mark_rules.specs.Table.{mark_array, base_array};
ghost use Rattle.mark_rules.specs.Written.{needs_of};
ghost use Rattle.mark_carrying.specs.Arranging.{Arranging};
ghost use Rattle.mark_carrying.specs.Measuring.{Measured};

use crate::arranging::arrange_glyphs;
use call_rules::Needs;
use mark_checks::MarkTable;
use mark_new_objects::new_length;
use store_reader::rows_of;

// How many offsets an object has.
fn links_from(links: &[u32], counts: [u32; 3], object: u32) -> usize
    requires { InOrder links.now (get_or counts 2 0) × (object < 65536) }
    ensures upper_bound { result ≤ get_or counts 2 0 }
    ensures by_index { (b o : List ℕ)
        → sound (lent b o links.now counts) ≡ true
        → result ≡ links_from (lent b o links.now counts) object }
{
    let rows = rows_of(links, counts[2] as usize, object);
    rows.after - rows.first
}

// What so many cuts need of a table whose arrays have so many links, where the new objects take `bytes` bytes.
fn needs_of(cuts: usize, links: usize, bytes: usize) -> Needs
    requires { (cuts < 65536) × (links ≤ 524288) }
    ensures { (s : Store) (t : ℕ) → links ≡ links_from s (mark_array s t) + links_from s (base_array s t) → result ≡ needs_of s t cuts bytes }
{
    Needs {
        objects: 4 * cuts + 3,
        links: 4 * cuts + links,
        bytes,
        entries: cuts,
    }
}

// Arranges the marks of a table by the tables that `cuts` make of it, by their glyphs, and counts what these need.
pub fn measure_needs(
    data: &[u8],
    objects: &[u32],
    links: &[u32],
    counts: [u32; 3],
    opened: MarkTable,
    glyphs: &mut [u16],
    classes: &mut [u16],
    glyph_set: &mut [u8],
    cuts: &[u16],
) -> Needs
    requires { (t : ℕ)
        × Arranging (store_now_with «data» objects links counts) t opened opened.glyphs glyphs.old classes.old glyph_set.old cuts.now }
    ensures { (t : ℕ)
        → Arranging (store_came_with «data» objects links counts) t opened opened.glyphs (came glyphs) (came classes) (came glyph_set)
        cuts.now
        → Measured (store_came_with «data» objects links counts) t (part (left glyphs) 0 opened.marks.count) (left classes) cuts.now result }
{
    let count = opened.marks.count as usize;
    arrange_glyphs(data, objects, opened, glyphs, classes, glyph_set, cuts);
    let bytes = new_length(
        &glyphs[0..count],
        classes,
        cuts,
        opened.classes,
        opened.bases.count,
    );
    let of_marks = links_from(links, counts, opened.marks.object);
    let of_bases = links_from(links, counts, opened.bases.object);
    needs_of(cuts.len(), of_marks + of_bases, bytes)
}
