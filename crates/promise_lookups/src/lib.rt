// No code: what is promised of entering new tables in lookups, in specs/ as statements, and in proofs/ as theorems.
#![tactic(auto)]
