// The link rows of new tables, made in place: the rows of the items that are cut off move behind all others and become rows of the new tables, each of
// which gets a header's rows. Part of `clone_range_format1` and `clone_range_format2` in the Rust text.
#![tactic(auto)]

ghost use Rattle.std.specs.Prelude.{◌≡◌, ℕ, ◌+◌, ◌*◌, ◌≤◌, ◌<◌, length};
ghost use Rattle.folds.specs.Lists.{put};
ghost use Rattle.folds.specs.Moments.{came, left};
ghost use Rattle.store_rules.specs.Store.{per_link};
ghost use Rattle.ot_pairpos.specs.Layout.{Numbered};
ghost use Rattle.store_link_rows.specs.Rows.{position_in, PositionsRise};
ghost use Rattle.pair_new_rows.specs.Blocks.{plan, edge, head_rows, grown, Fit, MovedUp, Spread, PartedRows};

use ot_pairpos::Layout;
use store_link_rows::{move_row, put_header, rotate_rows};
use store_reader::{PER_LINK, POSITION};

// Of the `count` rows from row q on, moves those at the end whose positions are at `bound` or above up, so that they end before row `to`, as rows of
// `parent` with positions lower by `down`. Returns how many are left.
fn move_up(
    links: &mut [u32],
    q: usize,
    count: usize,
    to: usize,
    bound: usize,
    down: usize,
    parent: u32,
) -> usize
    requires { (q + count ≤ to) × (per_link * to ≤ length links.old) × (down ≤ bound) }
    ensures { MovedUp (came links) (left links) q count to bound down parent result }
{
    for left in (0..count).rev() {
        let last = q + left;
        let position = links[PER_LINK * last + POSITION] as usize;
        if position < bound {
            return left + 1;
        }
        move_row(
            links,
            last,
            to - count + left,
            parent,
            (position - down) as u32,
        );
    }
    0
}

// Writes the header's rows of the new table: to its coverage, and in format 2 to its class definition 1 and the shared class definition 2.
fn put_heads(links: &mut [u32], k: usize, layout: Layout, table: u32, class2: u32)
    requires { Numbered layout × (per_link * (k + layout.heads) ≤ length links.old) × (table + layout.own < 4294967296) }
    ensures { left links ≡ put (came links) (per_link * k) (head_rows layout.format class2 table) }
{
    let own = [2u32, 8];
    let heads = [2u32, 8, 10];
    let own_count = layout.own;
    let head_count = layout.heads;
    put_header(
        links,
        k,
        &own[0..own_count],
        &heads[0..head_count],
        table,
        class2,
    );
}

// The last of m rows, those from row q on, become the rows of new tables, from the last table to the first.
#[tactic(auto, using(crate::proofs::Spreading::numbers))]
fn spread(
    links: &mut [u32],
    q: usize,
    m: usize,
    cuts: &[u16],
    layout: Layout,
    first: usize,
    class2: u32,
)
    requires fit { Fit (plan cuts.now layout first class2) }
    requires q_le_m { (q ≤ m) × (per_link * grown m (plan cuts.now layout first class2) ≤ length links.old) }
    requires positions_rise { PositionsRise links.old q m }
    requires by_index { (k : ℕ) → q ≤ k → k < m → edge (plan cuts.now layout first class2) 0 ≤ position_in links.old k }
    ensures { Spread (came links) (left links) q m (plan cuts.now layout first class2) }
{
    let mut left = m - q;
    let mut at = m + layout.heads * cuts.len();
    for j in (0..cuts.len()).rev() {
        let table = first + (layout.own + 1) * j;
        let down = layout.item * (cuts[j] as usize);
        let rest = move_up(links, q, left, at, layout.header + down, down, table as u32);
        at = at - (left - rest) - layout.heads;
        left = rest;
        put_heads(links, at, layout, table as u32, class2);
    }
}

// Of m rows, those from a up to b become the rows of new tables, behind all others.
pub fn part_rows(
    links: &mut [u32],
    m: usize,
    a: usize,
    b: usize,
    cuts: &[u16],
    layout: Layout,
    first: usize,
    class2: u32,
)
    requires fit { Fit (plan cuts.now layout first class2) }
    requires a_le_b { (a ≤ b) × (b ≤ m) × (per_link * grown m (plan cuts.now layout first class2) ≤ length links.old) }
    requires positions_rise { PositionsRise links.old a b }
    requires by_index { (k : ℕ) → a ≤ k → k < b → edge (plan cuts.now layout first class2) 0 ≤ position_in links.old k }
    ensures { PartedRows (came links) (left links) a b m (plan cuts.now layout first class2) }
{
    rotate_rows(links, a, b, m);
    spread(links, a + (m - b), m, cuts, layout, first, class2);
}
