// Where the links of an array's rows of slots are expected. An array is gone through column by column, or some columns at a time: how far each of its rows of
// slots has been gone through is held for the next time. These are guesses, by which a link is found with few looks: none decides what is found.
ghost use Rattle.std.specs.Prelude.{◌≤◌};

use crate::LinkRows;

// So many rows of slots, the first ones, are held.
pub const HELD: usize = 4096;

// How many link rows a row of slots has besides those at `passed` of its slots, where each slot has one or each row of slots has as many.
pub fn rows_each(links: LinkRows, rows: usize, passed: usize) -> usize
    requires { links.first ≤ links.after }
    ensures { result ≤ links.after }
{
    if rows == 0 {
        return 0;
    }
    let each = (links.after - links.first) / rows;
    if each < passed {
        return 0;
    }
    each - passed
}

// How far row i of the slots has been gone through; `other` where that is not held.
pub fn held_row(held: &[u32; 4096], i: usize, other: usize) -> usize {
    if HELD <= i {
        return other;
    }
    let link = wide(held[i]);
    if link == 0 {
        return other;
    }
    link
}

// Holds that row i of the slots has been gone through before this link row.
pub fn hold_row(held: &mut [u32; 4096], i: usize, link: usize) {
    if HELD <= i {
        return;
    }
    if 4294967295 < link {
        return;
    }
    held[i] = link as u32;
}

fn wide(x: u32) -> usize {
    x as usize
}
