// The bytes of a new table of items `lo` up to `hi` of an old one. The old one starts at byte `head`; the new one is written past it, at `at`.
#![tactic(auto)]

ghost use Rattle.std.specs.Prelude.{◌≡◌, ◌++◌, ◌+◌, ◌-◌, ◌*◌, ◌≤◌, length};
ghost use Rattle.folds.specs.Lists.{put, part};
ghost use Rattle.ot_layouts.specs.Numbers.{be16};
ghost use Rattle.folds.specs.Moments.{came, left};
ghost use Rattle.pair_new_table.specs.Cloned.{Cloned1, Cloned2};

use buffers::{copy_bytes, zero_bytes};
use ot_wire::put_u16;

// What both formats start with: the format, no coverage offset yet, and the value formats.
fn write_head(data: &mut [u8], head: usize, at: usize)
    requires head_bound { head + 8 ≤ at }
    requires at_in_bounds { at + 8 ≤ length «data».old }
    ensures { left «data» ≡ put (came «data») at (part (came «data») head (head + 2) ++ be16 0 ++ part (came «data») (head + 4) (head + 8)) }
{
    copy_bytes(data, head, at, 2);
    put_u16(data, at + 2, 0);
    copy_bytes(data, head + 4, at + 4, 4);
}

// Format 1: the count, and an empty slot for each pair set. Returns where the table ends.
pub fn write_format1(data: &mut [u8], head: usize, lo: u16, hi: u16, at: usize) -> usize
    requires lo_le_hi { lo ≤ hi }
    requires head_bound { head + 10 ≤ at }
    requires lo_in_bounds { at + 10 + 2 * (hi - lo) ≤ length «data».old }
    ensures { Cloned1 (came «data») head lo hi at (left «data») result }
{
    let count = hi - lo;
    let bytes = 2 * (count as usize);
    write_head(data, head, at);
    put_u16(data, at + 8, count);
    zero_bytes(data, at + 10, bytes);
    at + 10 + bytes
}

// Format 2: no class definition offsets yet, the counts, and the rows, of `row` bytes each. Returns where the table ends.
pub fn write_format2(data: &mut [u8], head: usize, row: usize, lo: u16, hi: u16, at: usize) -> usize
    requires lo_le_hi { lo ≤ hi }
    requires hi_bound { head + (16 + row * hi) ≤ at }
    requires lo_in_bounds { at + (16 + row * (hi - lo)) ≤ length «data».old }
    ensures { Cloned2 (came «data») head row lo hi at (left «data») result }
{
    let count = hi - lo;
    let first = head + (16 + row * (lo as usize));
    let bytes = row * (count as usize);
    write_head(data, head, at);
    write_counts(data, head, count, at);
    copy_bytes(data, first, at + 16, bytes);
    at + 16 + bytes
}

// What format 2 has between the value formats and the rows.
fn write_counts(data: &mut [u8], head: usize, count: u16, at: usize)
    requires head_bound { head + 16 ≤ at }
    requires at_in_bounds { at + 16 ≤ length «data».old }
    ensures { left «data» ≡ put (came «data») (at + 8) (be16 0 ++ be16 0 ++ be16 count ++ part (came «data») (head + 14) (head + 16)) }
{
    put_u16(data, at + 8, 0);
    put_u16(data, at + 10, 0);
    put_u16(data, at + 12, count);
    copy_bytes(data, head + 14, at + 14, 2);
}
