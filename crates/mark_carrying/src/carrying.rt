// A split carried out at given places: `clone_range` and `shrink` of the Rust text. All that can refuse it has been asked: nothing here fails.
ghost use Rattle.std.specs.Prelude.{◌≡◌, List, ℕ, ◌+◌, ◌*◌, ◌<◌, length, get_or};
ghost use Rattle.folds.specs.Lists.{put};
ghost use Rattle.folds.specs.Moments.{came, left};
ghost use Rattle.ot_layouts.specs.Numbers.{be16};
ghost use Rattle.ot_layouts.specs.MarkBasePos.{class_count_at};
ghost use Rattle.store_rules.specs.Store.{lent};
ghost use Rattle.store_rules.specs.Moments.{store_came, store_left, store_now};
ghost use Rattle.mark_links.specs.Splitting.{LinksSplit};
ghost use Rattle.mark_carrying.specs.Carrying.{Relinking, Carrying, CutAt};

use crate::arranging::arrange_places;
use call_lists::number_tables;
use call_rules::Needs;
use mark_arrays::Arrays;
use mark_checks::MarkTable;
use mark_links::copy_links;
use mark_new_objects::write_objects;
use ot_wire::put_u16;

// The table keeps its first `count` classes.
fn keep_classes(data: &mut [u8], objects: &[u32], table: u32, count: u16)
    requires table_in_bounds { 2 * table < length objects.now }
    requires class_count_at_in_bounds { get_or objects.now (2 * table) 0 + class_count_at + 1 < length «data».old }
    ensures { left «data» ≡ put (came «data») (get_or objects.now (2 * table) 0 + class_count_at) (be16 count) }
{
    let head = objects[2 * (table as usize)] as usize;
    put_u16(data, head + 6, count);
}

// Rewrites the link rows once the new objects stand behind those in use: the mark array still lies where it was, and the marks' places come where their
// glyphs were. Returns how many rows are in use then.
fn relink(
    data: &[u8],
    objects: &[u32],
    links: &mut [u32],
    counts: [u32; 3],
    table: u32,
    opened: MarkTable,
    places: &mut [u16],
    classes: &mut [u16],
    glyph_set: &mut [u8],
    cuts: &[u16],
) -> usize
    requires { (b o : List ℕ)
        × Relinking (lent b o links.old counts) table opened «data».now objects.now places.old classes.old glyph_set.old
        cuts.now }
    ensures { (b o : List ℕ)
        → Relinking (lent b o (came links) counts) table opened «data».now objects.now (came places) (came classes) (came glyph_set)
        cuts.now
        → LinksSplit (lent b o (came links) counts) table cuts.now (left links) result }
{
    let arrays = Arrays::of(opened);
    arrange_places(data, objects, opened, places, classes, glyph_set, cuts);
    copy_links(links, counts, table, arrays, places, classes, cuts)
}

// Splits the table at `cuts`, which needs `needs`. Its marks come arranged by their glyphs.
// The class count is set last: no byte of an old object changes before the mark array has been read.
pub fn carry_out(
    data: &mut [u8],
    objects: &mut [u32],
    links: &mut [u32],
    counts: &mut [u32; 3],
    table: u32,
    opened: MarkTable,
    needs: Needs,
    glyphs: &mut [u16],
    classes: &mut [u16],
    glyph_set: &mut [u8],
    cuts: &[u16],
    new_tables: &mut [u32],
)
    requires { Carrying (store_now «data» objects links counts) table opened needs glyphs.old classes.old glyph_set.old cuts.now
        new_tables.old }
    ensures { CutAt (store_came «data» objects links counts) table cuts.now (came new_tables) (store_left «data» objects links counts)
        (left new_tables) }
{
    let bytes = write_objects(
        data,
        objects,
        glyphs,
        classes,
        cuts,
        opened.classes,
        opened.bases.count,
        counts[0] as usize,
        counts[1] as usize,
    );
    let rows = relink(
        data, objects, links, *counts, table, opened, glyphs, classes, glyph_set, cuts,
    );
    keep_classes(data, objects, table, cuts[0]);
    number_tables(new_tables, counts[1], 4, cuts.len());
    let byte_count = bytes as u32;
    let object_count = counts[1] + (needs.objects as u32);
    let link_count = rows as u32;
    // Stored whole, so that the array's length is known.
    *counts = [byte_count, object_count, link_count];
}
