// The arrays of a mark-to-base table and their link rows: what the cut rule walks and a split copies.
#![tactic(auto)]

ghost use Rattle.std.specs.Prelude.{◌≡◌, ◌<◌, get_or};
ghost use Rattle.store_reader.specs.Rows.{InOrder};
ghost use Rattle.mark_arrays.specs.Arrays.{arrays_of, RowsKnown};

use mark_checks::MarkTable;
use store_reader::{LinkRows, rows_of};

// The table's arrays and its base coverage as objects, and how many mark classes and bases it has.
#[derive(Clone, Copy)]
pub struct Arrays {
    pub mark_array: u32,
    pub base_array: u32,
    pub base_coverage: u32,
    pub classes: u16,
    pub bases: u16,
}

// The link rows of the mark array and of the base array.
#[derive(Clone, Copy)]
pub struct ArrayRows {
    pub marks: LinkRows,
    pub bases: LinkRows,
}

// One of the two: an array as an object, and its link rows.
#[derive(Clone, Copy)]
pub struct ArrayLinks {
    pub object: u32,
    pub rows: LinkRows,
}

impl Arrays {
    // Those of a table that has passed the checks.
    pub fn of(opened: MarkTable) -> Arrays
        ensures { result ≡ arrays_of opened }
    {
        Arrays {
            mark_array: opened.marks.object,
            base_array: opened.bases.object,
            base_coverage: opened.base_coverage.object,
            classes: opened.classes,
            bases: opened.bases.count,
        }
    }
}

impl ArrayRows {
    // Looks up the link rows of both arrays.
    pub fn of(links: &[u32], counts: [u32; 3], arrays: Arrays) -> ArrayRows
        requires in_order_lem { InOrder links.now (get_or counts 2 0) }
        requires used { (arrays.mark_array < 65536) × (arrays.base_array < 65536) }
        ensures { RowsKnown links.now counts arrays result }
    {
        let count = counts[2] as usize;
        let marks = rows_of(links, count, arrays.mark_array);
        let bases = rows_of(links, count, arrays.base_array);
        ArrayRows { marks, bases }
    }
}
