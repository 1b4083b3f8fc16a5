// What a caller may rely on: each exported function called once, with the demands as its contract.
#![tactic(auto)]

pub mod compaction;
pub mod editions;
pub mod lookups;
pub mod marks;
pub mod pairs;
