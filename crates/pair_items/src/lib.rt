// What the cut rules of both formats ask of a pair table: its numbers, and its items, measured one after another. The counterpart of
// `Format2TableInfo` and of what the Rust text asks `find_subgraph_size`.
#![tactic(auto)]

pub mod measuring;
pub mod table_info;
