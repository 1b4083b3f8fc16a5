// The step that every kind of table shares: an item is weighed, and goes into the table that is being filled or starts the next one. A caller asks
// whether a cut is due before it says what the item costs at it, since edition 2 measures the item at a cut again.
#![tactic(auto)]

ghost use Rattle.std.specs.Prelude.{◌≡◌, ◌<◌, length};
ghost use Rattle.cut_rules.specs.Cuts.{Rule, after};
ghost use Rattle.folds.specs.Moments.{came, left};
ghost use Rattle.cut_filling.specs.Filling.{Fills, IsDue, ItemAdded, Cut};

// The table that is being filled: its first item, the sum of its items so far, and how many cuts stand before it.
#[derive(Clone, Copy)]
pub struct Filling {
    pub first: u16,
    pub sum: u64,
    pub cuts: usize,
}

impl Filling {
    // Nothing is in the first table yet but its header.
    pub fn new(start: u64) -> Self
        ensures { (r : Rule) → r.start ≡ start → Fills result (after r 0) }
    {
        Filling {
            first: 0,
            sum: start,
            cuts: 0,
        }
    }

    // Whether a cut is due at item `i`, which costs `cost`, with `beside` bytes of coverage and class definitions.
    pub fn is_due(self, i: u16, cost: u64, beside: u64, edition: u32) -> bool
        requires { (self.sum < 4294967296) × (cost < 4294967296) × (beside < 4294967296) }
        ensures { IsDue self i cost beside edition result }
    {
        if self.sum + cost + beside <= 65535 {
            return false;
        }
        if edition == 2 {
            return 0 < i;
        }
        true
    }

    // An item that costs `cost` goes into the table.
    pub fn add(mut self, cost: u64) -> Self
        requires { (self.sum < 4294967296) × (cost < 4294967296) }
        ensures { ItemAdded self cost result }
    {
        self.sum = self.sum + cost;
        self
    }

    // Item `i`, which costs `cost` at a cut, starts the next table, whose header has `start` bytes.
    pub fn cut(mut self, i: u16, cost: u64, start: u64, cuts: &mut [u16]) -> Self
        requires { (cost < 4294967296) × (start < 4294967296) × (self.cuts < length cuts.old) }
        ensures { Cut self i cost start (came cuts) result (left cuts) }
    {
        let at = self.cuts;
        cuts[at] = i;
        self.first = i;
        self.sum = start + cost;
        self.cuts = at + 1;
        self
    }
}
