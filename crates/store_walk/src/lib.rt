// What can be reached along the link rows of a sound store: how many bytes it has, each object counted once, and whether a table is among it.
#![tactic(auto)]

ghost use Rattle.std.specs.Prelude.{ℕ, ◌+◌, ◌*◌, ◌≤◌, ◌<◌, max, Bool, true, cond, ◌≡◌, List, length, get_or, replicate, ltb, eqb};
ghost use Rattle.folds.specs.Folds.{before};
ghost use Rattle.store_rules.specs.Store.{lent, sound};
ghost use Rattle.folds.specs.Moments.{came, left};
ghost use Rattle.store_reader.specs.Rows.{orders};
ghost use Rattle.store_walk.specs.Marks.{no_row, Offsets, Blank, Lasts, Prepared, WalkReady, Walks, Begun};

use store_reader::next_row;

// Prepares the scratch, which may hold anything: no object has a mark, and the row where each object's rows end is at hand.
pub fn prepare(links: &[u32], counts: [u32; 3], walk: &mut [u32])
    requires { Blank links.now counts walk.old }
    ensures { Prepared links.now counts (left walk) }
{
    walk.fill(0);
    last_rows(links, counts, walk);
    row_ends(links, counts, walk);
}

// For each object one more than the last of its rows, 0 where it has none.
fn last_rows(links: &[u32], counts: [u32; 3], walk: &mut [u32])
    requires { Blank links.now counts walk.old × (walk.old ≡ replicate (length walk.old) 0) }
    ensures { Lasts links.now counts (left walk) }
{
    let n = counts[1] as usize;
    let m = counts[2] as usize;
    for k in 0..m {
        let parent = links[store_reader::PER_LINK * k + store_reader::PARENT] as usize;
        walk[n + parent] = (k + 1) as u32;
    }
}

// Where each object's rows end: those of an object with none where those of the object before it do.
fn row_ends(links: &[u32], counts: [u32; 3], walk: &mut [u32])
    requires { Blank links.now counts walk.old × Lasts links.now counts walk.old }
    ensures { Prepared links.now counts (left walk) }
{
    let n = counts[1] as usize;
    let mut end: u32 = 0;
    for i in 0..n {
        end = end.max(walk[n + i]);
        walk[n + i] = end;
    }
}

// The row where the rows of object `i` of `n` start: where those of the object before it end.
pub fn first_row_of(walk: &[u32], n: usize, i: usize) -> u32
    requires { (n + i ≤ length walk.now) × (n + i < 4294967296) }
    ensures { result ≡ before (λ j. get_or walk.now (n + j) 0) i }
{
    if i == 0 {
        return 0;
    }
    walk[n + (i - 1)]
}

// Whether object `i` of `n` has no link rows: they would start where they end.
fn has_no_rows(walk: &[u32], n: usize, i: usize) -> bool
    requires { (n + i < length walk.now) × (n + i < 4294967296) }
    ensures { result ≡ eqb (before (λ j. get_or walk.now (n + j) 0) i) (get_or walk.now (n + i) 0) }
{
    first_row_of(walk, n, i) == walk[n + i]
}

// What an object with this mark adds: its size, or nothing if this epoch has found it. Which of the two cannot be foretold, so both are at hand
// and no branch is needed to choose; nor is one for `later`.
fn added(size: u32, mark: u32, epoch: u32) -> u32
    ensures { result ≡ cond (ltb mark epoch) size 0 }
{
    if mark < epoch { size } else { 0 }
}

// The later of two marks.
fn later(mark: u32, epoch: u32) -> u32
    ensures { result ≡ max mark epoch }
{
    if mark < epoch { epoch } else { mark }
}

// The length of all objects that can be reached from the children of the offsets in rows `lo` up to `hi` and have not the mark `epoch` yet; each is counted once.
// Order-only rows are passed over: they stand behind a parent's offsets, so that what a row is can be foretold. Objects whose rows are still to come are a stack:
// `top` is one more than the last of them, 0 where there is none, and each has in the place of its mark one more than the epoch and the `top` that it found. An
// object with no rows gets its mark at once.
pub fn subgraph_size(
    objects: &[u32],
    links: &[u32],
    counts: [u32; 3],
    lo: usize,
    hi: usize,
    epoch: u32,
    walk: &mut [u32],
) -> u64
    requires { (hi ≤ get_or counts 2 0) × ((from : ℕ → Bool) × WalkReady objects.now links.now counts from epoch walk.old) × Offsets links.now lo hi }
    ensures { Walks objects.now links.now counts lo hi epoch (came walk) (left walk) result }
{
    let mut sum: u64 = 0;
    let mut row = lo;
    let mut stop = hi;
    let mut top: u32 = 0;
    loop {
        if row < stop {
            let kind = links[store_reader::PER_LINK * row + store_reader::KIND];
            let child = links[store_reader::PER_LINK * row + store_reader::CHILD];
            let c = child as usize;
            row += 1;
            let mark = walk[c];
            let n = counts[1] as usize;
            if kind == 0 {
                if has_no_rows(walk, n, c) {
                    let size = store_reader::size_of(objects, c);
                    sum += added(size, mark, epoch) as u64;
                    walk[c] = later(mark, epoch);
                } else if mark < epoch {
                    walk[c] = epoch + 1 + top;
                    top = child + 1;
                    sum += store_reader::size_of(objects, c) as u64;
                }
            }
        } else {
            if top == 0 {
                return sum;
            }
            let n = counts[1] as usize;
            let parent = (top - 1) as usize;
            top = walk[parent] - epoch - 1;
            walk[parent] = epoch;
            row = first_row_of(walk, n, parent) as usize;
            stop = walk[n + parent] as usize;
        }
    }
}

// Walks what the links of `table` before position `end` lead to, in the first epoch: so that from then on, as its other links are walked, the
// table has a mark exactly if those walked so far lead back to it.
fn walk_before(
    objects: &[u32],
    links: &[u32],
    counts: [u32; 3],
    table: u32,
    end: u32,
    walk: &mut [u32],
)
    requires { (table < get_or counts 1 0) × WalkReady objects.now links.now counts no_row 1 walk.old × (end ≤ orders) }
    ensures { (b : List ℕ) → Begun (lent b objects.now links.now counts) table end (left walk) }
{
    let n = counts[1] as usize;
    let m = counts[2] as usize;
    let lo = first_row_of(walk, n, table as usize) as usize;
    let hi = next_row(links, m, lo, table, end);
    subgraph_size(objects, links, counts, lo, hi, 1, walk);
}

// Begins with the links of the table before position `end`. The scratch may hold anything.
pub fn begin_walk(
    objects: &[u32],
    links: &[u32],
    counts: [u32; 3],
    table: u32,
    end: u32,
    walk: &mut [u32],
)
    requires by_index { (b : List ℕ) × (sound (lent b objects.now links.now counts) ≡ true) }
    requires table_bound { (table < get_or counts 1 0) × (2 * get_or counts 1 0 ≤ length walk.old) × (end ≤ orders) }
    ensures { (b : List ℕ) → Begun (lent b objects.now links.now counts) table end (left walk) }
{
    prepare(links, counts, walk);
    walk_before(objects, links, counts, table, end, walk);
}
