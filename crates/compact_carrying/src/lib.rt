// A compaction carried out in place, once each object to keep has a mark in the first half of the walk: numbers are given out, objects move down one
// after the other, rows are rewritten in one pass, and what is left over becomes zero. Each step is linear.
#![tactic(auto)]

ghost use Rattle.std.specs.Prelude.{◌≡◌};
ghost use Rattle.folds.specs.Moments.{came, left};
ghost use Rattle.store_rules.specs.Moments.{store_came, store_left, store_now};
ghost use Rattle.compact_rules.specs.Kept.{kept};
ghost use Rattle.compact_rules.specs.Calls.{compact_outcome, compact_done};
ghost use Rattle.compact_carrying.specs.Packing.{Carrying};

use crate::links::compact_links;
use crate::numbers::{number_kept, rewrite_roots};
use crate::objects::compact_objects;

pub mod links;
pub mod numbers;
pub mod objects;

// Compacts the store, of which the objects to keep have their marks; how many bytes have moved.
pub fn carry_out(
    data: &mut [u8],
    objects: &mut [u32],
    links: &mut [u32],
    counts: &mut [u32; 3],
    roots: &mut [u32],
    walk: &mut [u32],
) -> u32
    requires { Carrying (store_now «data» objects links counts) roots.old walk.old }
    ensures { compact_outcome 0 result (store_left «data» objects links counts) (left roots) (left walk)
        ≡ compact_done (store_came «data» objects links counts) (kept (store_came «data» objects links counts) (came roots)) (came roots) (came walk) }
{
    let n = counts[1] as usize;
    number_kept(walk, n);
    let packed = compact_objects(data, objects, *counts, walk);
    let rows = compact_links(links, *counts, walk);
    rewrite_roots(roots, n, walk);
    walk.fill(0);
    let bytes = packed.bytes;
    let kept = packed.objects;
    // Stored whole, so that the array's length is known.
    *counts = [bytes, kept, rows];
    packed.moved
}
