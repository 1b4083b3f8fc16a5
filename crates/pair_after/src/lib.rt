// No code: where everything is after a split that goes ahead, in proofs/ as laws over the store that it leaves.
#![tactic(auto)]
