// Objects moved down in their order, each behind the one before, and zeros behind the last.
ghost use Rattle.std.specs.Prelude.{◌≡◌, true, List, [], ℕ, ◌≤◌, length, get_or};
ghost use Rattle.folds.specs.Moments.{came, left};
ghost use Rattle.store_rules.specs.Store.{lent, sound};
ghost use Rattle.compact_rules.specs.Marks.{has_mark};
ghost use Rattle.compact_carrying.specs.Packing.{Placing, PlacedAt, PackedObjects, ObjectsLeft};

use buffers::{copy_bytes, zero_bytes};
use store_object_rows::put_object;

// Where a kept object ends now, and how many of its bytes have moved.
#[derive(Clone, Copy)]
struct Placed {
    end: u32,
    moved: u32,
}

// Moves object i down to byte `at`, as object j.
fn place(data: &mut [u8], objects: &mut [u32], i: usize, j: usize, at: u32) -> Placed
    requires { Placing «data».old objects.old i j at }
    ensures { PlacedAt (came «data») (came objects) i j at (left «data») (left objects) result }
{
    let head = objects[2 * i];
    let tail = objects[2 * i + 1];
    let size = tail - head;
    put_object(objects, j, at, at + size);
    if head == at {
        return Placed {
            end: tail,
            moved: 0,
        };
    }
    copy_bytes(data, head as usize, at as usize, size as usize);
    Placed {
        end: at + size,
        moved: size,
    }
}

// How many bytes and objects are in use now, and how many bytes have moved.
#[derive(Clone, Copy)]
pub struct Packed {
    pub bytes: u32,
    pub objects: u32,
    pub moved: u32,
}

// Moves each marked object down behind the marked ones before it.
fn pack_objects(data: &mut [u8], objects: &mut [u32], counts: [u32; 3], walk: &[u32]) -> Packed
    requires by_index { (l : List ℕ) × (sound (lent «data».old objects.old l counts) ≡ true) }
    requires counts_in_bounds { get_or counts 1 0 ≤ length walk.now }
    ensures { PackedObjects (lent (came «data») (came objects) [] counts) (has_mark walk.now) (left «data») (left objects) result }
{
    let mut at: u32 = 0;
    let mut j: usize = 0;
    let mut moved: u32 = 0;
    for i in 0..counts[1] as usize {
        if 0 < walk[i] {
            let p = place(data, objects, i, j, at);
            at = p.end;
            moved += p.moved;
            j += 1;
        }
    }
    Packed {
        bytes: at,
        objects: j as u32,
        moved,
    }
}

// The same, and makes zero what they leave.
pub fn compact_objects(
    data: &mut [u8],
    objects: &mut [u32],
    counts: [u32; 3],
    walk: &[u32],
) -> Packed
    requires by_index { (l : List ℕ) × (sound (lent «data».old objects.old l counts) ≡ true) }
    requires counts_in_bounds { get_or counts 1 0 ≤ length walk.now }
    ensures { ObjectsLeft (lent (came «data») (came objects) [] counts) (has_mark walk.now) (left «data») (left objects) result }
{
    let packed = pack_objects(data, objects, counts, walk);
    let bytes = packed.bytes;
    let kept = packed.objects;
    zero_bytes(data, bytes as usize, (counts[0] - bytes) as usize);
    objects[2 * (kept as usize)..2 * (counts[1] as usize)].fill(0);
    packed
}
