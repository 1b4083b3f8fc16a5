// Link rows, rewritten in place when a table is split: the rows of the items that are cut off become rows of the new tables, and the kept table's lead to
// its new parts.
#![tactic(auto)]

ghost use Rattle.std.specs.Prelude.{◌≡◌, List, [], ℕ, ◌+◌, ◌*◌, ◌≤◌, ◌<◌, length};
ghost use Rattle.folds.specs.Lists.{put};
ghost use Rattle.folds.specs.Moments.{came, left};
ghost use Rattle.store_rules.specs.Store.{lent, per_link};
ghost use Rattle.ot_layouts.specs.PairPos.{own_in};
ghost use Rattle.ot_pairpos.specs.Layout.{shape_with, Numbered};
ghost use Rattle.store_link_rows.specs.Rows.{segment, kept_row};
ghost use Rattle.pair_links.specs.Parting.{Parting, Between, LinksSplit};

use ot_pairpos::Layout;
use pair_new_rows::part_rows;
use store_link_rows::keep_rows;
use store_reader::first_row;

// The kept table's own parts, coverage and in format 2 class definition 1, are new objects, of which `first` is the first: of the first `count` rows, the
// table's lead there.
fn keep_table(links: &mut [u32], count: usize, layout: Layout, table: u32, first: u32)
    requires { Numbered layout × (per_link * count ≤ length links.old) × (first + 1 < 4294967296) }
    ensures { left links ≡ put (came links) 0 (segment (kept_row (came links) (own_in layout.format) table first) 0 count) }
{
    let own = [2u32, 8];
    let own_count = layout.own;
    keep_rows(links, count, &own[0..own_count], table, first);
}

// Rewrites the link rows for a split of `table` at `cuts`, where the rows from `first` up to `after` are those of the items that are cut off. Returns how
// many rows are in use then.
fn part_between(
    links: &mut [u32],
    counts: [u32; 3],
    table: u32,
    layout: Layout,
    cuts: &[u16],
    first: usize,
    after: usize,
    class2: u32,
) -> usize
    requires { Between (lent [] [] links.old counts) table layout cuts.now first after class2 }
    ensures { (b o : List ℕ) → LinksSplit (lent b o (came links) counts) table (shape_with layout) cuts.now (left links) result }
{
    let objects = counts[1] as usize;
    let count = counts[2] as usize;
    let first_kept = objects + (layout.own + 1) * cuts.len();
    part_rows(links, count, first, after, cuts, layout, objects, class2);
    keep_table(
        links,
        count - (after - first),
        layout,
        table,
        first_kept as u32,
    );
    count + layout.heads * cuts.len()
}

// Rewrites the link rows for a split of `table` at `cuts`; `class2` is the object that new tables of format 2 share. Returns how many rows are in use then.
pub fn part_links(
    links: &mut [u32],
    counts: [u32; 3],
    table: u32,
    layout: Layout,
    cuts: &[u16],
    class2: u32,
) -> usize
    requires { Parting (lent [] [] links.old counts) table layout cuts.now class2 }
    ensures { (b o : List ℕ) → LinksSplit (lent b o (came links) counts) table (shape_with layout) cuts.now (left links) result }
{
    let count = counts[2] as usize;
    let start = layout.header + layout.item * (cuts[0] as usize);
    let end = layout.header + layout.item * (layout.count as usize);
    let first = first_row(links, count, table, start as u32);
    let after = first_row(links, count, table, end as u32);
    part_between(links, counts, table, layout, cuts, first, after, class2)
}
