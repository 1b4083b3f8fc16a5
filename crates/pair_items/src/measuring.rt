// The items of a table, measured one after another: the counterpart of `find_subgraph_size` as the cut rules call it. Every offset of
// the table stands at a slot, and a table's offsets come first and in order of position, so that an item's links are the rows within its bytes.
ghost use Rattle.std.specs.Prelude.{◌≡◌, List, ℕ, ◌+◌, ◌≤◌, ◌<◌};
ghost use Rattle.store_reader.specs.Rows.{orders};
ghost use Rattle.ot_layouts.specs.PairPos.{Shape, item_at};
ghost use Rattle.store_rules.specs.Store.{lent};
ghost use Rattle.folds.specs.Moments.{came, left};
ghost use Rattle.pair_items.specs.Measuring.{At, MeasuresItem, AtCut, MeasuresAtCut};

use store_reader::next_row;
use store_walk::subgraph_size;

// An item's size, and the row at which the next item's links start.
#[derive(Clone, Copy)]
pub struct Measured {
    pub size: u64,
    pub next: usize,
}

// Measures the item of `table` that ends before `end` and whose links start at `row`: what it reaches and has not the mark `epoch` yet.
pub fn measure(
    objects: &[u32],
    links: &[u32],
    counts: [u32; 3],
    table: u32,
    row: usize,
    end: u32,
    epoch: u32,
    walk: &mut [u32],
) -> Measured
    requires epoch_bound { (epoch < 2147483648) × (end ≤ orders) }
    requires by_index { (b : List ℕ)
        × (sh : Shape)
        × (a : ℕ)
        × (i : ℕ)
        × (end ≡ item_at sh (i + 1))
        × At (lent b objects.now links.now counts) table sh a i row epoch walk.old }
    ensures { MeasuresItem objects.now links.now counts table row end epoch (came walk) result (left walk) }
{
    let count = counts[2] as usize;
    let next = next_row(links, count, row, table, end);
    let size = subgraph_size(objects, links, counts, row, next, epoch, walk);
    Measured { size, next }
}

// The size at a cut of the item whose links are the rows from `row` to those of the next item: edition 2 measures it again, in an epoch whose mark
// nothing has yet.
pub fn measure_at_cut(
    objects: &[u32],
    links: &[u32],
    counts: [u32; 3],
    row: usize,
    measured: Measured,
    edition: u32,
    epoch: u32,
    walk: &mut [u32],
) -> u64
    requires epoch_bound { epoch < 2147483648 }
    requires by_index { (b : List ℕ)
        × (t : ℕ)
        × (sh : Shape)
        × (i : ℕ)
        × AtCut (lent b objects.now links.now counts) t sh i row measured.next epoch walk.old }
    ensures { MeasuresAtCut objects.now links.now counts row measured edition epoch (came walk) result (left walk) }
{
    if edition == 2 {
        let next = measured.next;
        return subgraph_size(objects, links, counts, row, next, epoch, walk);
    }
    measured.size
}
