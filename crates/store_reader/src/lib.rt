// The object store that the caller lends: whether it is sound, an object's bytes, a parent's link rows, and the child at a position.
#![tactic(auto)]

ghost use Rattle.std.specs.Prelude.{ℕ, ◌+◌, ◌-◌, ◌*◌, ◌≤◌, ◌<◌, min, ◌≡◌, Bool, true, List, length, get_or, leb};
ghost use Rattle.folds.specs.Folds.{all};
ghost use Rattle.store_rules.specs.Store.{lent, per_link, row_kind, bytes_of, object_fits, link_fits, sound, handed_out, child_at, all_at};
ghost use Rattle.store_rules.specs.Moments.{store_came_with};
ghost use Rattle.store_reader.specs.Rows.{Inside, least_head, key_of, kind_in, row_place, row_key, OfParent, ObjectsSmall, shaped_key, fitting_key, InOrder, Bracket, FirstRow, ParentRows, Tells};

pub mod held_rows;

// The numbers of a link row, and where each stands in it.
pub const PER_LINK: usize = 5;

pub const PARENT: usize = 0;

pub const POSITION: usize = 1;

pub const WIDTH: usize = 2;

pub const CHILD: usize = 3;

pub const KIND: usize = 4;

// Where the places of order-only rows start: behind all positions, since no object has more bytes.
pub const ORDERS: u32 = 16777216;

// Link rows one behind the other: those from `first` on, before `after`. Unlike a `Range`, it can be handed on and used again.
#[derive(Clone, Copy)]
pub struct LinkRows {
    pub first: usize,
    pub after: usize,
}

#[tactic(auto, unfolding(store_rules::specs::Store::object_fits))]
// Whether object row `i` fits: head ≤ tail ≤ data in use, and its head is at or after `least`, the tail before it.
fn object_fits(objects: &[u32], counts: [u32; 3], i: usize, least: u32) -> bool
    requires { (2 * i + 1 < length objects.now) × (least ≡ least_head objects.now i) }
    ensures { (b l : List ℕ) → result ≡ object_fits (lent b objects.now l counts) i }
{
    let head = objects[2 * i];
    let tail = objects[2 * i + 1];
    least <= head && head <= tail && tail <= counts[0]
}

// Whether each object row in use fits.
fn objects_fit(objects: &[u32], counts: [u32; 3]) -> bool
    requires { 2 * get_or counts 1 0 ≤ length objects.now }
    ensures { (b l : List ℕ) → result ≡ all (object_fits (lent b objects.now l counts)) (get_or counts 1 0) }
{
    let mut least: u32 = 0;
    for i in 0..counts[1] as usize {
        if !object_fits(objects, counts, i, least) {
            return false;
        }
        least = objects[2 * i + 1];
    }
    true
}

// Parent and place as one number.
fn key_of(parent: u32, place: u32) -> u64
    ensures { result ≡ key_of parent place }
{
    4294967296 * (parent as u64) + (place as u64)
}

// Where link row `k` stands among those of its parent.
fn place_at(links: &[u32], k: usize) -> u32
    requires { (per_link * k + row_kind < length links.now) × (row_place links.now k < 4294967296) }
    ensures { result ≡ row_place links.now k }
{
    if links[PER_LINK * k + KIND] == 0 {
        return links[PER_LINK * k + POSITION];
    }
    ORDERS + links[PER_LINK * k + CHILD]
}

// Parent and place of link row `k` as one number.
fn key_at(links: &[u32], k: usize) -> u64
    requires { (per_link * k + row_kind < length links.now) × (row_place links.now k < 4294967296) }
    ensures { result ≡ row_key links.now k }
{
    key_of(links[PER_LINK * k + PARENT], place_at(links, k))
}

// Whether position + 2 is within object `i`.
fn position_fits(objects: &[u32], i: usize, position: u32) -> bool
    requires { 2 * i + 1 < length objects.now }
    ensures { result ≡ leb (position + 2) (get_or objects.now (2 * i + 1) 0 - get_or objects.now (2 * i) 0) }
{
    (objects[2 * i] as u64) + (position as u64) + 2 <= (objects[2 * i + 1] as u64)
}

// The key of link row `k`, an offset of `parent`, where it is of its shape, with width 2 and position + 2 within the parent.
fn offset_key(objects: &[u32], links: &[u32], k: usize, parent: u32) -> Option<u64>
    requires { (2 * parent + 1 < length objects.now) × OfParent links.now k parent × (kind_in links.now k ≡ 0) }
    ensures { (b c : List ℕ) → result ≡ shaped_key (lent b objects.now links.now c) k }
{
    if links[PER_LINK * k + WIDTH] != 2 {
        return None;
    }
    let position = links[PER_LINK * k + POSITION];
    if !position_fits(objects, parent as usize, position) {
        return None;
    }
    Some(key_of(parent, position))
}

// The same of one that is no offset: it has to have kind 1, position 0 and width 0.
fn order_key(links: &[u32], k: usize, parent: u32) -> Option<u64>
    requires { OfParent links.now k parent × (kind_in links.now k ≡ 0 → ⊥) × (row_place links.now k < 4294967296) }
    ensures { (b o c : List ℕ) → result ≡ shaped_key (lent b o links.now c) k }
{
    if links[PER_LINK * k + KIND] != 1 {
        return None;
    }
    if links[PER_LINK * k + POSITION] != 0 {
        return None;
    }
    if links[PER_LINK * k + WIDTH] != 0 {
        return None;
    }
    Some(key_of(parent, ORDERS + links[PER_LINK * k + CHILD]))
}

// The key of link row `k`, where its parent and child are in use and it is of its kind's shape.
fn fitting_key(objects: &[u32], links: &[u32], counts: [u32; 3], k: usize) -> Option<u64>
    requires { ObjectsSmall objects.now counts × (per_link * k + row_kind < length links.now) }
    ensures { (b : List ℕ) → result ≡ fitting_key (lent b objects.now links.now counts) k }
{
    let parent = links[PER_LINK * k + PARENT];
    if counts[1] <= parent {
        return None;
    }
    if counts[1] <= links[PER_LINK * k + CHILD] {
        return None;
    }
    if links[PER_LINK * k + KIND] == 0 {
        return offset_key(objects, links, k, parent);
    }
    order_key(links, k, parent)
}

// Whether each link row in use fits: the keys of fitting rows ascend as the rows do.
fn links_fit(objects: &[u32], links: &[u32], counts: [u32; 3]) -> bool
    requires { ObjectsSmall objects.now counts × (per_link * get_or counts 2 0 ≤ length links.now) }
    ensures { (b : List ℕ) → result ≡ all (link_fits (lent b objects.now links.now counts)) (get_or counts 2 0) }
{
    let mut least: u64 = 0;
    for k in 0..counts[2] as usize {
        let Some(key) = fitting_key(objects, links, counts, k) else {
            return false;
        };
        if key < least {
            return false;
        }
        least = key + 1;
    }
    true
}

// Whether a count fits the lent length and the maximum.
fn count_fits(count: u32, length: usize, most: usize) -> bool
    ensures { result ≡ leb count (min length most) }
{
    (count as usize) <= length.min(most)
}

// Whether the lent store is sound.
pub fn is_sound(data: &[u8], objects: &[u32], links: &[u32], counts: [u32; 3]) -> bool
    ensures { result ≡ sound (store_came_with «data» objects links counts) }
{
    if !count_fits(counts[0], data.len(), 16777216) {
        return false;
    }
    if !count_fits(counts[1], objects.len() / 2, 65536) {
        return false;
    }
    if !count_fits(counts[2], links.len() / PER_LINK, 262144) {
        return false;
    }
    if !objects_fit(objects, counts) {
        return false;
    }
    links_fit(objects, links, counts)
}

// The length of object `i`.
pub fn size_of(objects: &[u32], i: usize) -> u32
    requires { (2 * i + 1 < length objects.now) × (get_or objects.now (2 * i) 0 ≤ get_or objects.now (2 * i + 1) 0) }
    ensures { result ≡ get_or objects.now (2 * i + 1) 0 - get_or objects.now (2 * i) 0 }
{
    objects[2 * i + 1] - objects[2 * i]
}

// The bytes of object `i`, as a part of the data.
pub fn bytes_of<'a>(data: &'a [u8], objects: &[u32], i: usize) -> &'a [u8]
    requires { Inside (length «data».now) objects.now i }
    ensures { (l c : List ℕ) → result.now ≡ bytes_of (lent «data».now objects.now l c) i }
{
    let head = objects[2 * i] as usize;
    let tail = objects[2 * i + 1] as usize;
    &data[head..tail]
}

// The bytes of object `table`, an empty part where the store is not sound or the object not in use.
pub fn object_bytes<'a>(
    data: &'a [u8],
    objects: &[u32],
    links: &[u32],
    counts: [u32; 3],
    table: u32,
) -> &'a [u8]
    ensures { result.now ≡ handed_out (store_came_with «data» objects links counts) table }
{
    if !is_sound(data, objects, links, counts) {
        return &data[0..0];
    }
    if counts[1] <= table {
        return &data[0..0];
    }
    bytes_of(data, objects, table as usize)
}

// The first of the `count` link rows at or past `position` of `parent`; `count` where there is none.
pub fn first_row(links: &[u32], count: usize, parent: u32, position: u32) -> usize
    requires { InOrder links.now count }
    ensures { FirstRow links.now count (key_of parent position) result }
{
    first_row_between(links, count, 0, count, key_of(parent, position))
}

// The first of the `count` link rows at or past `key`, by halving: it is known to be one from `lo` to `hi`.
fn first_row_between(links: &[u32], count: usize, lo: usize, hi: usize, key: u64) -> usize
    requires { InOrder links.now count × Bracket links.now count key lo hi }
    ensures { FirstRow links.now count key result }
{
    let mut from = lo;
    let mut to = hi;
    while from < to {
        let mid = from + (to - from) / 2;
        if key_at(links, mid) < key {
            from = mid + 1;
        } else {
            to = mid;
        }
    }
    from
}

// The same, looked for from `lo` up in steps that double, and then by halving the last of them.
fn row_up(links: &[u32], count: usize, lo: usize, hi: usize, key: u64) -> usize
    requires { InOrder links.now count × Bracket links.now count key lo hi }
    ensures { FirstRow links.now count key result }
{
    let mut from = lo;
    let mut step = 1;
    while step <= hi - from {
        let last = from + step - 1;
        if key <= key_at(links, last) {
            return first_row_between(links, count, from, last, key);
        }
        from = last + 1;
        step += step;
    }
    first_row_between(links, count, from, hi, key)
}

// The same, from `hi` down.
fn row_down(links: &[u32], count: usize, lo: usize, hi: usize, key: u64) -> usize
    requires { InOrder links.now count × Bracket links.now count key lo hi }
    ensures { FirstRow links.now count key result }
{
    let mut to = hi;
    let mut step = 1;
    while step <= to - lo {
        let row = to - step;
        if key_at(links, row) < key {
            return first_row_between(links, count, row + 1, to, key);
        }
        to = row;
        step += step;
    }
    first_row_between(links, count, lo, to, key)
}

// The first of the `count` link rows at or past `position` of `parent`, which is one from `lo` to `hi`. It is looked for at row `near`, and outwards from
// there: the nearer it is the fewer rows are looked at.
pub fn row_near(
    links: &[u32],
    count: usize,
    lo: usize,
    hi: usize,
    near: usize,
    parent: u32,
    position: u32,
) -> usize
    requires { InOrder links.now count × Bracket links.now count (key_of parent position) lo hi }
    ensures { FirstRow links.now count (key_of parent position) result }
{
    let key = key_of(parent, position);
    if hi <= near {
        return row_down(links, count, lo, hi, key);
    }
    if near < lo {
        return row_up(links, count, lo, hi, key);
    }
    let found = key_at(links, near);
    if found < key {
        return row_up(links, count, near + 1, hi, key);
    }
    if key < found {
        return row_down(links, count, lo, near, key);
    }
    near
}

// The same, row by row from `start` on, before which every row stands before that position of that parent.
pub fn next_row(links: &[u32], count: usize, start: usize, parent: u32, position: u32) -> usize
    requires { InOrder links.now count × (start ≤ count) × ((k : ℕ) → k < start → row_key links.now k < key_of parent position) }
    ensures { FirstRow links.now count (key_of parent position) result }
{
    let key = key_of(parent, position);
    for row in start..count {
        if key <= key_at(links, row) {
            return row;
        }
    }
    count
}

// The offsets of `parent` among the `count` link rows.
pub fn rows_of(links: &[u32], count: usize, parent: u32) -> LinkRows
    requires in_order_lem { InOrder links.now count }
    requires parent_bound { parent < 65536 }
    ensures { ParentRows links.now count parent result }
{
    let first = first_row(links, count, parent, 0);
    let after = first_row(links, count, parent, ORDERS);
    LinkRows { first, after }
}

// The child that the offset at `position` of `parent` leads to, where `row` is the first row at or past it.
pub fn child_in(
    links: &[u32],
    counts: [u32; 3],
    row: usize,
    parent: u32,
    position: u32,
) -> Option<u32>
    requires { InOrder links.now (get_or counts 2 0) × FirstRow links.now (get_or counts 2 0) (key_of parent position) row }
    ensures { (b o : List ℕ) → result ≡ child_at (lent b o links.now counts) parent position }
{
    if (counts[2] as usize) <= row {
        return None;
    }
    if links[PER_LINK * row + PARENT] != parent {
        return None;
    }
    if links[PER_LINK * row + KIND] != 0 {
        return None;
    }
    if links[PER_LINK * row + POSITION] != position {
        return None;
    }
    Some(links[PER_LINK * row + CHILD])
}

// The child that the offset at `position` of `parent` leads to.
pub fn child_at(links: &[u32], counts: [u32; 3], parent: u32, position: u32) -> Option<u32>
    requires { InOrder links.now (get_or counts 2 0) }
    ensures { (b o : List ℕ) → result ≡ child_at (lent b o links.now counts) parent position }
{
    let row = first_row(links, counts[2] as usize, parent, position);
    child_in(links, counts, row, parent, position)
}

// Whether each offset of `parent` stands where `is_slot` says that one may. Order-only links have no position, and are not asked.
pub fn all_offsets<F: Fn(u32) -> bool>(
    links: &[u32],
    counts: [u32; 3],
    parent: u32,
    is_slot: F,
) -> bool
    requires order { InOrder links.now (get_or counts 2 0) }
    requires parent_bound { parent < 65536 }
    requires callable { F.IsAlwaysCallable is_slot }
    ensures { (b o : List ℕ) (slot : ℕ → Bool)
        → sound (lent b o links.now counts) ≡ true
        → Tells (F.post is_slot) slot
        → result ≡ all_at (lent b o links.now counts) parent slot }
{
    let rows = rows_of(links, counts[2] as usize, parent);
    for row in rows.first..rows.after {
        if !is_slot(links[PER_LINK * row + POSITION]) {
            return false;
        }
    }
    true
}
