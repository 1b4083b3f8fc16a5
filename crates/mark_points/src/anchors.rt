// What the anchors of a class reach and nothing before them did: the counterpart of `find_subgraph_size` as the cut rule calls it. Every offset
// of an array stands at a slot, so that an anchor's link is the row at its slot's position, if there is one.
ghost use Rattle.std.specs.Prelude.{map, ◌+◌, ◌*◌, ◌≤◌, ◌<◌};
ghost use Rattle.store_reader.specs.Rows.{orders};
ghost use Rattle.ot_layouts.specs.MarkBasePos.{mark_slot, base_slot};
ghost use Rattle.folds.specs.Moments.{came, left};
ghost use Rattle.mark_arrays.specs.Arrays.{RowsKnown};
ghost use Rattle.mark_points.specs.Anchors.{column_slots, Goes, Walkable, WalksAt, WalksSlot, WalksClass, WalksAtCut};

use crate::table_info::TableInfo;
use mark_arrays::{ArrayLinks, ArrayRows};
use store_reader::held_rows::{held_row, hold_row, rows_each};
use store_reader::{next_row, row_near};
use store_walk::subgraph_size;

// What a slot's anchor adds, the first row at or past the slot, and the first row past it: there is a link where these are two.
#[derive(Clone, Copy)]
struct Slot {
    size: u64,
    row: usize,
    next: usize,
}

// The size of all anchors of `class`, whose marks are at these places. How far the rows of each base have been gone through is held for the next class.
pub fn class_size(
    objects: &[u32],
    links: &[u32],
    counts: [u32; 3],
    info: TableInfo,
    rows: ArrayRows,
    class: u16,
    places: &[u16],
    epoch: u32,
    held: &mut [u32; 4096],
    walk: &mut [u32],
) -> u64
    requires class_lt_classes { (class < info.arrays.classes) × (base_slot (info.arrays.bases * info.arrays.classes) ≤ orders) }
    requires rows_known { RowsKnown links.now counts info.arrays rows × Goes objects.now links.now counts epoch walk.old }
    ensures { WalksClass objects.now links.now counts info class places.now epoch (came walk) (left walk) result }
{
    let base_array = ArrayLinks {
        object: info.arrays.base_array,
        rows: rows.bases,
    };
    let mark_array = ArrayLinks {
        object: info.arrays.mark_array,
        rows: rows.marks,
    };
    let bases = column_size(
        objects,
        links,
        counts,
        base_array,
        info.arrays.bases,
        info.arrays.classes,
        class,
        epoch,
        held,
        walk,
    );
    let marks = marks_size(objects, links, counts, mark_array, places, epoch, walk);
    bases + marks
}

// The size at a cut of all anchors of `class`, which was `size` before it: edition 2 measures them again, in an epoch whose mark nothing has yet.
pub fn class_size_at_cut(
    objects: &[u32],
    links: &[u32],
    counts: [u32; 3],
    info: TableInfo,
    rows: ArrayRows,
    class: u16,
    places: &[u16],
    size: u64,
    edition: u32,
    epoch: u32,
    held: &mut [u32; 4096],
    walk: &mut [u32],
) -> u64
    requires class_lt_classes { (class < info.arrays.classes) × (base_slot (info.arrays.bases * info.arrays.classes) ≤ orders) }
    requires rows_known { RowsKnown links.now counts info.arrays rows × Goes objects.now links.now counts epoch walk.old }
    ensures { WalksAtCut objects.now links.now counts info class places.now size edition epoch (came walk) (left walk) result }
{
    if edition == 2 {
        return class_size(
            objects, links, counts, info, rows, class, places, epoch, held, walk,
        );
    }
    size
}

// The size of the anchor at `position` of `array`, 0 where there is no link. Its row is looked for near a row.
fn slot_size(
    objects: &[u32],
    links: &[u32],
    counts: [u32; 3],
    array: ArrayLinks,
    near: usize,
    position: u32,
    epoch: u32,
    walk: &mut [u32],
) -> Slot
    requires position_bound { position + 1 ≤ orders }
    requires walkable { Walkable objects.now links.now counts array epoch walk.old }
    ensures { WalksSlot objects.now links.now counts array.object position epoch (came walk) (left walk) result }
{
    let count = counts[2] as usize;
    let row = row_near(
        links,
        count,
        array.rows.first,
        array.rows.after,
        near,
        array.object,
        position,
    );
    let next = next_row(links, count, row, array.object, position + 1);
    let size = subgraph_size(objects, links, counts, row, next, epoch, walk);
    Slot { size, row, next }
}

// The size of the bases' anchors for `class`, one of `classes`: a column of the base array. A base's row is expected where the class before ended, and where
// that is not held, as far behind the one of the base before as an even array has it.
fn column_size(
    objects: &[u32],
    links: &[u32],
    counts: [u32; 3],
    array: ArrayLinks,
    bases: u16,
    classes: u16,
    class: u16,
    epoch: u32,
    held: &mut [u32; 4096],
    walk: &mut [u32],
) -> u64
    requires class_lt_classes { (class < classes) × (base_slot (bases * classes) ≤ orders) }
    requires walkable { Walkable objects.now links.now counts array epoch walk.old }
    ensures { WalksAt objects.now links.now counts array.object (column_slots bases classes class) epoch (came walk) (left walk) result }
{
    let each = rows_each(array.rows, bases as usize, 0);
    let mut near = array.rows.first;
    let mut size: u64 = 0;
    for base in 0..bases {
        let slot = (base as usize) * (classes as usize) + (class as usize);
        let anchor = slot_size(
            objects,
            links,
            counts,
            array,
            held_row(held, base as usize, near),
            (2 + 2 * slot) as u32,
            epoch,
            walk,
        );
        hold_row(held, base as usize, anchor.next);
        near = anchor.row + each;
        size += anchor.size;
    }
    size
}

// The size of the anchors of the marks at these places.
fn marks_size(
    objects: &[u32],
    links: &[u32],
    counts: [u32; 3],
    array: ArrayLinks,
    places: &[u16],
    epoch: u32,
    walk: &mut [u32],
) -> u64
    requires { Walkable objects.now links.now counts array epoch walk.old }
    ensures { WalksAt objects.now links.now counts array.object (map mark_slot places.now) epoch (came walk) (left walk) result }
{
    let mut size: u64 = 0;
    for &place in places {
        let place = place as usize;
        let anchor = slot_size(
            objects,
            links,
            counts,
            array,
            array.rows.first + place,
            (4 + 4 * place) as u32,
            epoch,
            walk,
        );
        size += anchor.size;
    }
    size
}
