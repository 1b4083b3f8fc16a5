// A split of a pair table at any places that ascend within it: its covered glyphs arranged by the new tables, what it needs measured, and it
// carried out. The counterpart of `clone_range_format1`, `clone_range_format2`, `shrink_format1` and `shrink_format2` in the Rust text,
// graph/pairpos_graph.rs.
#![tactic(auto)]

pub mod arranging;
pub mod carrying;
pub mod measuring;
