// A value format's fields: how many, which, and where each stands in a value record. The counterpart of `get_device_table_indices`.
#![tactic(auto)]

ghost use Rattle.std.specs.Prelude.{◌≡◌, ◌<◌, eqb};
ghost use Rattle.folds.specs.Lists.{among};
ghost use Rattle.ot_layouts.specs.Values.{bit, field_count, position, devices};

// The first row of the table that is a device.
const FIRST_DEVICE: usize = 4;

// The fields of `format`: the ones among its low eight bits.
pub fn field_count(format: u16) -> usize
    ensures { result ≡ field_count format }
{
    (format & 0xff).count_ones() as usize
}

// Whether `format` has field `j` of the table.
pub fn has_field(format: u16, j: usize) -> bool
    requires { j < 8 }
    ensures { result ≡ eqb (bit format j) 1 }
{
    let mask = ot_layouts::field_at(j).mask;
    format & mask == mask
}

// Where field `j` of the table stands: the fields of `format` in the rows before it.
pub fn position(format: u16, j: usize) -> usize
    requires { j < 8 }
    ensures { result ≡ position format j }
{
    let below = ot_layouts::field_at(j).mask - 1;
    (format & below).count_ones() as usize
}

// Whether a device stands at position `k`: the devices are the rows of the table from `FIRST_DEVICE` on, so they stand behind the plain fields.
pub fn is_device(format: u16, k: usize) -> bool
    ensures { result ≡ among k (devices format) }
{
    position(format, FIRST_DEVICE) <= k && k < field_count(format)
}
