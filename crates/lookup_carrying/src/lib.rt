// A split of a pair table at any places that ascend within it, with its new tables entered in lookups: what both need measured, and both carried
// out. It has no counterpart in the Rust text, which enters no table in a lookup.
#![tactic(auto)]

pub mod carrying;
pub mod measuring;
