// What the cut rules ask of a table: the counterpart of `Format2TableInfo`, for both formats.
ghost use Rattle.std.specs.Prelude.{◌≡◌, ◌+◌, ◌*◌, ◌<◌};

// The table; its header's length, at which a sum starts, an item's, and how many items there are; the length of the object that stands beside
// the items, coverage in format 1 and class definition 2 in format 2; and the first mark of a walk that no object has yet.
#[derive(Clone, Copy)]
pub struct TableInfo {
    pub table: u32,
    pub header: usize,
    pub item: usize,
    pub count: u16,
    pub beside: u32,
    pub epoch: u32,
}

impl TableInfo {
    // Where item `i` ends.
    pub fn item_end(self, i: u16) -> u32
        requires { self.header + self.item * (i + 1) < 4294967296 }
        ensures { result ≡ self.header + self.item * (i + 1) }
    {
        (self.header + self.item * (i as usize + 1)) as u32
    }
}
