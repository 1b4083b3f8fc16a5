// The bytes of a new mark-to-base table and of its two arrays, with the rows of these: part of `clone_range` and `shrink` in the Rust text.
#![tactic(auto)]

ghost use Rattle.std.specs.Prelude.{◌≡◌, [], ◌∷◌, ◌+◌, ◌*◌, ◌≤◌, length};
ghost use Rattle.folds.specs.Lists.{put};
ghost use Rattle.folds.specs.Moments.{came, left};
ghost use Rattle.ot_layouts.specs.Numbers.{words};
ghost use Rattle.store_object_rows.specs.Objects.{Laid, ObjectsRoom, Written};
ghost use Rattle.mark_rules.specs.Written.{new_table, new_base_array};
ghost use Rattle.mark_new_table.specs.Arrays.{Classes, mark_array_of, arrays_of};

use buffers::zero_bytes;
use ot_wire::put_u16;
use store_object_rows::put_object;

// Writes a new table of the classes `lo` up to `hi`: format 1, their count, and no offsets. Returns where it ends.
pub fn write_table(data: &mut [u8], lo: u16, hi: u16, at: usize) -> usize
    requires lo_le_hi { lo ≤ hi }
    requires at_in_bounds { at + 12 ≤ length «data».old }
    ensures { Laid (came «data») at (new_table lo hi) (left «data») result }
{
    put_u16(data, at, 1);
    zero_bytes(data, at + 2, 4);
    put_u16(data, at + 6, hi - lo);
    zero_bytes(data, at + 8, 4);
    at + 12
}

// Writes a mark of a mark array: its class, and no offset.
fn put_mark(data: &mut [u8], at: usize, class: u16)
    requires { at + 4 ≤ length «data».old }
    ensures { left «data» ≡ put (came «data») at (words (class ∷ 0 ∷ [])) }
{
    put_u16(data, at, class);
    put_u16(data, at + 2, 0);
}

// Writes a mark array of these classes, each reduced by `lo`. Returns where it ends.
fn write_mark_array(data: &mut [u8], classes: &[u16], lo: u16, hi: u16, at: usize) -> usize
    requires classes { Classes classes.now lo hi }
    requires classes_in_bounds { at + (2 + 4 * length classes.now) ≤ length «data».old }
    ensures { Laid (came «data») at (mark_array_of lo classes.now) (left «data») result }
{
    put_u16(data, at, classes.len() as u16);
    let first = at + 2;
    for (k, &class) in classes.iter().enumerate() {
        put_mark(data, first + 4 * k, class - lo);
    }
    first + 4 * classes.len()
}

// Writes a base array of so many bases and classes: the count, and no offsets. Returns where it ends.
fn write_base_array(data: &mut [u8], bases: u16, classes: u16, at: usize) -> usize
    requires { at + (2 + 2 * (bases * classes)) ≤ length «data».old }
    ensures { Laid (came «data») at (new_base_array bases classes) (left «data») result }
{
    let slots = (bases as usize) * (classes as usize);
    put_u16(data, at, bases);
    zero_bytes(data, at + 2, 2 * slots);
    at + (2 + 2 * slots)
}

// Writes the two arrays of a table of the classes `lo` up to `hi`, from byte `at` and row `row` on. Returns where they end.
pub fn write_arrays(
    data: &mut [u8],
    objects: &mut [u32],
    classes: &[u16],
    bases: u16,
    lo: u16,
    hi: u16,
    at: usize,
    row: usize,
) -> usize
    requires classes { Classes classes.now lo hi }
    requires objects_room_lem { ObjectsRoom «data».old objects.old at row (arrays_of classes.now bases lo hi) }
    ensures { Written (came «data») (came objects) at row (arrays_of classes.now bases lo hi) (left «data») (left objects) result }
{
    let middle = write_mark_array(data, classes, lo, hi, at);
    put_object(objects, row, at as u32, middle as u32);
    let end = write_base_array(data, bases, hi - lo, middle);
    put_object(objects, row + 1, middle as u32, end as u32);
    end
}
