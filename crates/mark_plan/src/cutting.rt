// The cut places of a table that has passed the checks: its marks' places are put in the order of their classes on the way.
ghost use Rattle.std.specs.Prelude.{◌≡◌, ℕ};
ghost use Rattle.folds.specs.Moments.{came, left};
ghost use Rattle.store_rules.specs.Moments.{store_came_with, store_now_with};
ghost use Rattle.store_reader.specs.Rows.{Inside};
ghost use Rattle.cut_filling.specs.Filling.{Placed};
ghost use Rattle.mark_rules.specs.Table.{cut_places};
ghost use Rattle.mark_plan.specs.Cutting.{info_of, Looked};

use call_rules::Settings;
use mark_arrays::Arrays;
use mark_checks::MarkTable;
use mark_order::order_places;
use mark_points::{TableInfo, compute_split_points};
use store_reader::{bytes_of, size_of};

// What the cut rule asks of the table. The marks of its walks come after that of the walk for check 7.
fn info_of(objects: &[u32], opened: MarkTable) -> TableInfo
    requires { Inside 16777216 objects.now opened.base_coverage.object }
    ensures { result ≡ info_of objects.now opened }
{
    let cover = opened.base_coverage.object;
    TableInfo {
        arrays: Arrays::of(opened),
        start: 16 + size_of(objects, cover as usize),
        epoch: 2,
    }
}

// The cut places, at the front of `cuts`, and how many there are.
pub fn cut_table(
    data: &[u8],
    objects: &[u32],
    links: &[u32],
    counts: [u32; 3],
    settings: Settings,
    opened: MarkTable,
    walk: &mut [u32],
    glyph_set: &mut [u8],
    glyphs: &mut [u16],
    classes: &mut [u16],
    cuts: &mut [u16],
) -> usize
    requires { (t : ℕ)
        × Looked (store_now_with «data» objects links counts) t opened walk.old glyph_set.old glyphs.old classes.old cuts.old }
    ensures { (t : ℕ)
        → Looked (store_came_with «data» objects links counts) t opened (came walk) (came glyph_set) (came glyphs) (came classes) (came cuts)
        → Placed (cut_places settings (store_came_with «data» objects links counts) t) (came cuts) (left cuts) result }
{
    let count = opened.marks.count as usize;
    let array = bytes_of(data, objects, opened.marks.object as usize);
    let info = info_of(objects, opened);
    order_places(
        array,
        &mut glyphs[0..count],
        &mut classes[0..count],
        glyph_set,
    );
    compute_split_points(
        objects,
        links,
        counts,
        info,
        settings,
        &glyphs[0..count],
        &classes[0..count],
        walk,
        cuts,
    )
}
