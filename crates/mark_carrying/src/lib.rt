// A split of a mark-to-base table at any places that ascend within it: its marks arranged by the new tables, what it needs measured, and it
// carried out. The counterpart of `clone_range` and `shrink` in the Rust text, graph/markbasepos_graph.rs.
#![tactic(auto)]

pub mod arranging;
pub mod carrying;
pub mod measuring;
