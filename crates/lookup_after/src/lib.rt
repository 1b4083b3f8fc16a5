// No code: where everything is after new tables are entered in lookups, in proofs/ as laws over the store that it leaves.
#![tactic(auto)]
