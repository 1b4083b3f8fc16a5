// What edition 2 leaves after a split of a pair table: in specs/ what a table takes together with its parts, and in proofs/ that it fits. No code.
#![tactic(auto)]
