// The cut places of a table that has passed the checks, but for the look for a cycle, which the walks of its items make on the way. In format 2 the
// covered glyphs are put in the order of their classes on the way.
ghost use Rattle.std.specs.Prelude.{◌≡◌, List, ℕ, ◌≤◌, length};
ghost use Rattle.store_rules.specs.Store.{lent};
ghost use Rattle.pair_items.specs.Filled.{TellsCycle};
ghost use Rattle.folds.specs.Moments.{came, left};
ghost use Rattle.store_rules.specs.Moments.{store_came_with, store_now_with};
ghost use Rattle.pair_plan.specs.Cutting.{Gathering, Gathers, HasLength, info_of, Looked1, CutsSets, SetsTell};
ghost use Rattle.pair_plan.specs.Cutting.{Looked2, CutsRows, RowsTell, Looked, CutsByClass, CutsTable};

use call_rules::Settings;
use glyph_by_class::order_by_class;
use ot_class_def_reader::classes_into;
use ot_coverage_reader::glyphs_into;
use pair_checks::PairTable;
use pair_items::table_info::TableInfo;
use pair_row_points::compute_format2_split_points;
use pair_set_points::compute_format1_split_points;
use store_reader::{bytes_of, size_of};

// What the cut rules ask of the table; object `beside` is the one whose length they ask. The marks of their walks come after that of the walk of the
// header's links.
fn info_of(objects: &[u32], table: u32, opened: PairTable, beside: u32) -> TableInfo
    requires { HasLength objects.now beside }
    ensures { result ≡ info_of objects.now table opened beside }
{
    let layout = opened.layout;
    TableInfo {
        table,
        header: layout.header,
        item: layout.item,
        count: layout.count,
        beside: size_of(objects, beside as usize),
        epoch: 2,
    }
}

// Format 1.
fn cut_sets(
    objects: &[u32],
    links: &[u32],
    counts: [u32; 3],
    table: u32,
    settings: Settings,
    opened: PairTable,
    walk: &mut [u32],
    cuts: &mut [u16],
) -> usize
    requires { (b : List ℕ) × Looked1 (lent b objects.now links.now counts) table opened walk.old cuts.old }
    ensures cuts_sets { CutsSets settings objects.now links.now counts table opened (came walk) (came cuts) (left cuts) result }
    ensures sets_tell { SetsTell objects.now links.now counts table opened (came walk) (came cuts) (left walk) }
{
    let coverage = opened.coverage;
    let info = info_of(objects, table, opened, coverage.object);
    compute_format1_split_points(objects, links, counts, info, settings, walk, cuts)
}

// The covered glyphs of a table of format 2 with their classes, in the order of these. The set may hold anything, before and after.
fn gather(
    data: &[u8],
    objects: &[u32],
    opened: PairTable,
    glyphs: &mut [u16],
    classes: &mut [u16],
    glyph_set: &mut [u8],
)
    requires by_index { (l c : List ℕ) × (t : ℕ) × Gathering (lent «data».now objects.now l c) t opened glyphs.old classes.old }
    requires in_bounds { 8192 ≤ length glyph_set.old }
    ensures { Gathers «data».now objects.now opened (came glyphs) (came classes) (left glyphs) (left classes) }
{
    let coverage = opened.coverage;
    let class1 = opened.class1;
    glyphs_into(
        bytes_of(data, objects, coverage.object as usize),
        coverage.header,
        glyphs,
    );
    classes_into(
        bytes_of(data, objects, class1.object as usize),
        class1.header,
        glyphs,
        classes,
    );
    order_by_class(classes, glyphs, glyph_set);
}

// Format 2, with the covered glyphs in the order of their classes.
fn cut_rows(
    objects: &[u32],
    links: &[u32],
    counts: [u32; 3],
    table: u32,
    settings: Settings,
    opened: PairTable,
    glyphs: &[u16],
    classes: &[u16],
    walk: &mut [u32],
    glyph_set: &mut [u8],
    cuts: &mut [u16],
) -> usize
    requires { (b : List ℕ)
        × Looked2 (lent b objects.now links.now counts) table opened glyphs.now classes.now walk.old glyph_set.old
        cuts.old }
    ensures cuts_rows { CutsRows settings objects.now links.now counts table opened glyphs.now classes.now (came walk) (came glyph_set)
        (came cuts) (left cuts) result }
    ensures rows_tell { RowsTell objects.now links.now counts table opened glyphs.now classes.now (came walk) (came glyph_set)
        (came cuts) (left walk) }
{
    let class2 = opened.class2;
    let info = info_of(objects, table, opened, class2.object);
    glyph_set.fill(0);
    compute_format2_split_points(
        objects, links, counts, info, settings, glyphs, classes, walk, glyph_set, cuts,
    )
}

// Format 2: the glyphs and their classes come to stand at the front of the scratch.
fn cut_by_class(
    data: &[u8],
    objects: &[u32],
    links: &[u32],
    counts: [u32; 3],
    table: u32,
    settings: Settings,
    opened: PairTable,
    walk: &mut [u32],
    glyph_set: &mut [u8],
    glyphs: &mut [u16],
    classes: &mut [u16],
    cuts: &mut [u16],
) -> usize
    requires looked { Looked (store_now_with «data» objects links counts) table opened walk.old glyph_set.old glyphs.old classes.old cuts.old }
    requires fact { opened.layout.format ≡ 1 → ⊥ }
    ensures cuts_by_class { CutsByClass settings (store_came_with «data» objects links counts) table (came glyphs) (came classes) (came cuts) (left glyphs)
        (left classes) (left cuts) result }
    ensures tells_cycle { TellsCycle (store_came_with «data» objects links counts) table (left walk) }
{
    let count = opened.glyphs;
    gather(
        data,
        objects,
        opened,
        &mut glyphs[0..count],
        &mut classes[0..count],
        glyph_set,
    );
    cut_rows(
        objects,
        links,
        counts,
        table,
        settings,
        opened,
        &glyphs[0..count],
        &classes[0..count],
        walk,
        glyph_set,
        cuts,
    )
}

// The cut places, at the front of `cuts`, and how many there are. The table then has a mark exactly if it can be reached from itself.
pub fn cut_table(
    data: &[u8],
    objects: &[u32],
    links: &[u32],
    counts: [u32; 3],
    table: u32,
    settings: Settings,
    opened: PairTable,
    walk: &mut [u32],
    glyph_set: &mut [u8],
    glyphs: &mut [u16],
    classes: &mut [u16],
    cuts: &mut [u16],
) -> usize
    requires { Looked (store_now_with «data» objects links counts) table opened walk.old glyph_set.old glyphs.old classes.old cuts.old }
    ensures cuts_table { CutsTable settings (store_came_with «data» objects links counts) table opened (came glyphs) (came classes) (came cuts) (left glyphs)
        (left classes) (left cuts) result }
    ensures tells_cycle { TellsCycle (store_came_with «data» objects links counts) table (left walk) }
{
    let layout = opened.layout;
    if layout.format == 1 {
        return cut_sets(objects, links, counts, table, settings, opened, walk, cuts);
    }
    cut_by_class(
        data, objects, links, counts, table, settings, opened, walk, glyph_set, glyphs, classes,
        cuts,
    )
}
