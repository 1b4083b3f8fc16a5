// The cut places of a table of format 1: the counterpart of `compute_format1_split_points`, which is edition 1's.
#![tactic(auto)]

ghost use Rattle.std.specs.Prelude.{◌≡◌, not, ◌||◌, List, eqb, ℕ, ◌<◌};
ghost use Rattle.store_rules.specs.Store.{lent};
ghost use Rattle.folds.specs.Moments.{came, left};
ghost use Rattle.cut_rules.specs.Cuts.{second};
ghost use Rattle.pair_set_points.specs.Format1.{Ready1, Below1, Weighs1, Places1, Tells1};

use call_rules::Settings;
use cut_filling::Filling;
use pair_items::measuring::{measure, measure_at_cut};
use pair_items::table_info::TableInfo;
use store_reader::first_row;

// The table that is being filled, the row at which the next pair set's link stands or would stand, and the length of the coverage of the
// pair sets in the table.
#[derive(Clone, Copy)]
pub struct Sets {
    pub filling: Filling,
    pub row: usize,
    pub partial: u64,
}

// The cut places, at the front of `cuts`, and how many there are.
pub fn compute_format1_split_points(
    objects: &[u32],
    links: &[u32],
    counts: [u32; 3],
    info: TableInfo,
    settings: Settings,
    walk: &mut [u32],
    cuts: &mut [u16],
) -> usize
    requires { (b : List ℕ) × Ready1 (lent b objects.now links.now counts) info walk.old cuts.old }
    ensures places1 { Places1 settings objects.now links.now counts info (came walk) (came cuts) (left cuts) result }
    ensures tells1 { Tells1 objects.now links.now counts info (came walk) (came cuts) (left walk) }
{
    let count = counts[2] as usize;
    let mut sets = Sets {
        filling: Filling::new(10),
        row: first_row(links, count, info.table, 10),
        partial: 4,
    };
    for i in 0..info.count {
        sets = weigh_set(objects, links, counts, info, settings, sets, i, walk, cuts);
    }
    sets.filling.cuts
}

// Weighs pair set `i`; in edition 1 an empty slot adds nothing.
fn weigh_set(
    objects: &[u32],
    links: &[u32],
    counts: [u32; 3],
    info: TableInfo,
    settings: Settings,
    sets: Sets,
    i: u16,
    walk: &mut [u32],
    cuts: &mut [u16],
) -> Sets
    requires { (i < info.count)
        × ((b : List ℕ) × (d : List ℕ) × Below1 settings (lent b objects.now links.now counts) info d i sets walk.old cuts.old) }
    ensures { Weighs1 settings objects.now links.now counts info i sets (came walk) (came cuts) result (left walk) (left cuts) }
{
    let filling = sets.filling;
    let row = sets.row;
    let epoch = info.epoch + (filling.cuts as u32);
    let end = info.item_end(i);
    let set = measure(objects, links, counts, info.table, row, end, epoch, walk);
    if !is_looked_at(row, set.next, settings.edition) {
        return sets;
    }
    let partial = sets.partial + 2;
    let beside = partial.min(info.beside as u64);
    if filling.is_due(i, set.size + 2, beside, settings.edition) {
        let size = measure_at_cut(
            objects,
            links,
            counts,
            row,
            set,
            settings.edition,
            epoch + 1,
            walk,
        );
        return Sets {
            filling: filling.cut(i, size + 2, 10, cuts),
            row: set.next,
            partial: 6,
        };
    }
    Sets {
        filling: filling.add(set.size + 2),
        row: set.next,
        partial,
    }
}

// Whether a slot is looked at whose links are the rows from `row` to `next`: in edition 2 an empty one is too.
fn is_looked_at(row: usize, next: usize, edition: u32) -> bool
    ensures { result ≡ (second edition || not (eqb next row)) }
{
    next != row || edition == 2
}
