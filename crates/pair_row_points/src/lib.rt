// The cut places of a table of format 2: the counterpart of `compute_format2_split_points`, which is edition 1's.
#![tactic(auto)]

ghost use Rattle.std.specs.Prelude.{List, ℕ, ◌<◌};
ghost use Rattle.store_rules.specs.Store.{lent};
ghost use Rattle.folds.specs.Moments.{came, left};
ghost use Rattle.pair_row_points.specs.Format2.{Ready2, Below2, Weighs2, Places2, Tells2};

use call_rules::Settings;
use cut_filling::Filling;
use pair_items::measuring::{measure, measure_at_cut};
use pair_items::table_info::TableInfo;
use pair_row_classes::Classes;
use store_reader::first_row;

// The table that is being filled, the link row at which the next class-1 row's links start, and the classes of the rows in the table.
#[derive(Clone, Copy)]
pub struct Rows {
    pub filling: Filling,
    pub row: usize,
    pub classes: Classes,
}

// The cut places, at the front of `cuts`, and how many there are. The covered glyphs come with their classes, in the order of these.
pub fn compute_format2_split_points(
    objects: &[u32],
    links: &[u32],
    counts: [u32; 3],
    info: TableInfo,
    settings: Settings,
    glyphs: &[u16],
    classes: &[u16],
    walk: &mut [u32],
    set: &mut [u8],
    cuts: &mut [u16],
) -> usize
    requires { (b : List ℕ) × Ready2 (lent b objects.now links.now counts) info glyphs.now classes.now walk.old set.old
        cuts.old }
    ensures places2 { Places2 settings objects.now links.now counts info glyphs.now classes.now (came walk) (came set) (came cuts) (left cuts) result }
    ensures tells2 { Tells2 objects.now links.now counts info glyphs.now classes.now (came walk) (came set) (came cuts) (left walk) }
{
    let count = counts[2] as usize;
    let mut rows = Rows {
        filling: Filling::new(16),
        row: first_row(links, count, info.table, 16),
        classes: Classes::new(),
    };
    for i in 0..info.count {
        rows = weigh_row(
            objects, links, counts, info, settings, rows, i, glyphs, classes, walk, set, cuts,
        );
    }
    rows.filling.cuts
}

// Weighs row `i`.
fn weigh_row(
    objects: &[u32],
    links: &[u32],
    counts: [u32; 3],
    info: TableInfo,
    settings: Settings,
    rows: Rows,
    i: u16,
    glyphs: &[u16],
    classes: &[u16],
    walk: &mut [u32],
    set: &mut [u8],
    cuts: &mut [u16],
) -> Rows
    requires { (i < info.count)
        ×
        ((b : List ℕ)
        × (d : List ℕ)
        × Below2 settings (lent b objects.now links.now counts) info glyphs.now classes.now d i rows walk.old set.old cuts.old) }
    ensures { Weighs2 settings objects.now links.now counts info glyphs.now classes.now i rows (came walk) (came set) (came cuts) result
        (left walk) (left set) (left cuts) }
{
    let filling = rows.filling;
    let row = rows.row;
    let epoch = info.epoch + (filling.cuts as u32);
    let end = info.item_end(i);
    let measured = measure(objects, links, counts, info.table, row, end, epoch, walk);
    let held = rows.classes.add(i, glyphs, classes, set);
    let beside = held.estimator.beside(info.beside as usize) as u64;
    if filling.is_due(
        i,
        info.item as u64 + measured.size,
        beside,
        settings.edition,
    ) {
        let size = measure_at_cut(
            objects,
            links,
            counts,
            row,
            measured,
            settings.edition,
            epoch + 1,
            walk,
        );
        return Rows {
            filling: filling.cut(i, info.item as u64 + size, 16, cuts),
            row: measured.next,
            classes: held.restart(i, glyphs, set),
        };
    }
    Rows {
        filling: filling.add(info.item as u64 + measured.size),
        row: measured.next,
        classes: held,
    }
}
