// A split carried out at given places: `clone_range_format1`, `clone_range_format2`, `shrink_format1` and `shrink_format2` of the Rust text.
// All that can refuse it has been asked: nothing here fails.
ghost use Rattle.std.specs.Prelude.{◌≡◌, List, ℕ, ◌+◌, ◌*◌, get_or, set};
ghost use Rattle.folds.specs.Lists.{put};
ghost use Rattle.ot_layouts.specs.Numbers.{be16};
ghost use Rattle.store_rules.specs.Store.{lent};
ghost use Rattle.folds.specs.Moments.{came, left};
ghost use Rattle.store_rules.specs.Moments.{store_came, store_left, store_now};
ghost use Rattle.pair_carrying.specs.Carrying.{Keeping, Writing, Wrote, Carrying, CutAt};

use call_lists::number_tables;
use call_rules::Needs;
use ot_pairpos::Layout;
use ot_wire::put_u16;
use pair_checks::PairTable;
use pair_links::part_links;
use pair_new_objects::write_objects;
use store_object_rows::shorten;

// The table keeps its first `count` items: its count is set, and it ends with them.
fn keep_items(data: &mut [u8], objects: &mut [u32], table: u32, layout: Layout, count: u16)
    requires { Keeping «data».old objects.old table layout count }
    ensures data_value { left «data» ≡ put (came «data») (get_or (came objects) (2 * table) 0 + layout.count_at) (be16 count) }
    ensures objects_value { left objects ≡ set (came objects) (2 * table + 1) (get_or (came objects) (2 * table) 0 + (layout.header + layout.item * count)) }
{
    let row = table as usize;
    let head = objects[2 * row] as usize;
    put_u16(data, head + layout.count_at, count);
    shorten(
        objects,
        row,
        (layout.header + layout.item * (count as usize)) as u32,
    );
}

// Writes the new objects behind those in use, and shortens the table. Returns where the data in use end.
fn write_bytes(
    data: &mut [u8],
    objects: &mut [u32],
    counts: [u32; 3],
    table: u32,
    layout: Layout,
    glyphs: &[u16],
    classes: &[u16],
    cuts: &[u16],
) -> usize
    requires { (l : List ℕ) × Writing (lent «data».old objects.old l counts) table layout glyphs.now classes.now cuts.now }
    ensures { (l : List ℕ)
        → Writing (lent (came «data») (came objects) l counts) table layout glyphs.now classes.now cuts.now
        → Wrote (lent (came «data») (came objects) l counts) table cuts.now (left «data») (left objects) result }
{
    let head = objects[2 * (table as usize)] as usize;
    let end = write_objects(
        data,
        objects,
        glyphs,
        classes,
        cuts,
        layout,
        head,
        counts[0] as usize,
        counts[1] as usize,
    );
    keep_items(data, objects, table, layout, cuts[0]);
    end
}

// Splits the table at `cuts`, which needs `needs`.
pub fn carry_out(
    data: &mut [u8],
    objects: &mut [u32],
    links: &mut [u32],
    counts: &mut [u32; 3],
    table: u32,
    opened: PairTable,
    needs: Needs,
    glyphs: &[u16],
    classes: &[u16],
    cuts: &[u16],
    new_tables: &mut [u32],
)
    requires { Carrying (store_now «data» objects links counts) table opened needs glyphs.now classes.now cuts.now new_tables.old }
    ensures { CutAt (store_came «data» objects links counts) table cuts.now (came new_tables) (store_left «data» objects links counts)
        (left new_tables) }
{
    let layout = opened.layout;
    let class2 = opened.class2;
    let count = cuts.len();
    let bytes = write_bytes(data, objects, *counts, table, layout, glyphs, classes, cuts);
    let rows = part_links(links, *counts, table, layout, cuts, class2.object);
    number_tables(new_tables, counts[1], layout.own + 1, count);
    let byte_count = bytes as u32;
    let object_count = counts[1] + (needs.objects as u32);
    let link_count = rows as u32;
    // Stored whole, so that the array's length is known.
    *counts = [byte_count, object_count, link_count];
}
