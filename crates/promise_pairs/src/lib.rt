// No code: what document 01 promises of a split, in specs/ as statements, and in proofs/ as theorems.
#![tactic(auto)]
