// Link rows read, written, moved and rotated in place; those of a header, and those that stay where a table is split.
#![tactic(auto)]

ghost use Rattle.std.specs.Prelude.{◌≡◌, ◌++◌, ◌+◌, ◌*◌, ◌≤◌, ◌<◌, length};
ghost use Rattle.folds.specs.Lists.{put};
ghost use Rattle.store_rules.specs.Store.{per_link, joining};
ghost use Rattle.store_rules.specs.Appended.{link, numbers_of, row_numbers};
ghost use Rattle.store_rules.specs.Header.{own_child, header_links};
ghost use Rattle.folds.specs.Moments.{came, left};
ghost use Rattle.store_link_rows.specs.Rows.{segment, link_of, link_in, rows, placed_row, changed_row, kept_row};

use store_reader::{CHILD, KIND, PARENT, PER_LINK, POSITION, WIDTH};

// The numbers of a link row.
#[derive(Clone, Copy)]
struct Row {
    parent: u32,
    position: u32,
    width: u32,
    child: u32,
    kind: u32,
}

// Row k.
fn row_at(links: &[u32], k: usize) -> Row
    requires { per_link * (k + 1) ≤ length links.now }
    ensures { link_of result ≡ link_in links.now k }
{
    let at = PER_LINK * k;
    Row {
        parent: links[at + PARENT],
        position: links[at + POSITION],
        width: links[at + WIDTH],
        child: links[at + CHILD],
        kind: links[at + KIND],
    }
}

// Writes row k.
fn put_row(links: &mut [u32], k: usize, row: Row)
    requires { per_link * (k + 1) ≤ length links.old }
    ensures { left links ≡ put (came links) (per_link * k) (numbers_of (link_of row)) }
{
    let at = PER_LINK * k;
    links[at + PARENT] = row.parent;
    links[at + POSITION] = row.position;
    links[at + WIDTH] = row.width;
    links[at + CHILD] = row.child;
    links[at + KIND] = row.kind;
}

// Writes a new link as row k.
pub fn put_link(links: &mut [u32], k: usize, parent: u32, position: u32, child: u32)
    requires { per_link * (k + 1) ≤ length links.old }
    ensures { left links ≡ put (came links) (per_link * k) (numbers_of (link parent position child)) }
{
    put_row(
        links,
        k,
        Row {
            parent,
            position,
            width: 2,
            child,
            kind: 0,
        },
    );
}

// Writes row i as row k, as a row of `parent` at `position`.
pub fn move_row(links: &mut [u32], i: usize, k: usize, parent: u32, position: u32)
    requires { (per_link * (i + 1) ≤ length links.old) × (per_link * (k + 1) ≤ length links.old) }
    ensures { left links ≡ put (came links) (per_link * k) (placed_row (came links) parent position i) }
{
    let row = row_at(links, i);
    put_row(
        links,
        k,
        Row {
            parent,
            position,
            width: row.width,
            child: row.child,
            kind: row.kind,
        },
    );
}

// Writes row i as row k, as a row of `parent` that leads to `child`.
pub fn renumber_row(links: &mut [u32], i: usize, k: usize, parent: u32, child: u32)
    requires { (per_link * (i + 1) ≤ length links.old) × (per_link * (k + 1) ≤ length links.old) }
    ensures { left links ≡ put (came links) (per_link * k) (changed_row (joining parent child) (came links) i) }
{
    let row = row_at(links, i);
    put_row(
        links,
        k,
        Row {
            parent,
            position: row.position,
            width: row.width,
            child,
            kind: row.kind,
        },
    );
}

// Moves the rows a up to b behind the rows b up to m.
pub fn rotate_rows(links: &mut [u32], a: usize, b: usize, m: usize)
    requires { (a ≤ b) × (b ≤ m) × (per_link * m ≤ length links.old) }
    ensures { left links ≡ put (came links) (per_link * a) (rows (came links) b m ++ rows (came links) a b) }
{
    // By three reversals, since a rotation of the library takes room on the stack.
    let part = &mut links[PER_LINK * a..PER_LINK * m];
    let moved = PER_LINK * (b - a);
    part[..moved].reverse();
    part[moved..].reverse();
    part.reverse();
}

// Where a table's link at `position` leads: its own parts, those at the positions `own`, are the objects from `first` on; any other leads to `child`.
fn own_child(own: &[u32], position: u32, child: u32, first: u32) -> u32
    requires { first + length own.now ≤ 4294967296 }
    ensures { result ≡ own_child own.now first position child }
{
    match own.iter().position(|at| *at == position) {
        Some(i) => first + (i as u32),
        None => child,
    }
}

// Writes the rows of the header of the new table, from row k on: links at the positions `heads`, of which those at `own` lead to the objects right behind the
// table and any other to `shared`.
pub fn put_header(links: &mut [u32], k: usize, own: &[u32], heads: &[u32], table: u32, shared: u32)
    requires heads_in_bounds { per_link * (k + length heads.now) ≤ length links.old }
    requires own_nonzero { (0 < length own.now) × (table + length own.now < 4294967296) }
    ensures { left links ≡ put (came links) (per_link * k) (row_numbers (header_links own.now heads.now table (λ q. shared))) }
{
    for i in 0..heads.len() {
        let position = heads[i];
        let child = own_child(own, position, shared, table + 1);
        put_link(links, k + i, table, position, child);
    }
}

// Row k, where it is an offset of the kept table, leads to the kept table's own new objects, of which `first` is the first.
fn keep_row(links: &mut [u32], k: usize, own: &[u32], table: u32, first: u32)
    requires { (per_link * (k + 1) ≤ length links.old) × (first + length own.now ≤ 4294967296) }
    ensures { left links ≡ put (came links) (per_link * k) (kept_row (came links) own.now table first k) }
{
    let at = PER_LINK * k;
    if links[at + PARENT] != table {
        return;
    }
    if links[at + KIND] != 0 {
        return;
    }
    links[at + CHILD] = own_child(own, links[at + POSITION], links[at + CHILD], first);
}

// The same of the first `count` rows.
pub fn keep_rows(links: &mut [u32], count: usize, own: &[u32], table: u32, first: u32)
    requires { (per_link * count ≤ length links.old) × (first + length own.now ≤ 4294967296) }
    ensures { left links ≡ put (came links) 0 (segment (kept_row (came links) own.now table first) 0 count) }
{
    for k in 0..count {
        keep_row(links, k, own, table, first);
    }
}
