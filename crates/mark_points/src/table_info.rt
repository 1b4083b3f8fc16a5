// What the cut rule asks of a table: the counterpart of `TableInfo`.

use mark_arrays::Arrays;

// The table's arrays; where a sum starts, with the base coverage's length; and the first mark of a walk that no object has yet.
#[derive(Clone, Copy)]
pub struct TableInfo {
    pub arrays: Arrays,
    pub start: u32,
    pub epoch: u32,
}
