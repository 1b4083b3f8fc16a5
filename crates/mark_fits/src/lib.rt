// What edition 2 leaves after a split of a mark-to-base table: in specs/ what a table takes together with its parts, and in proofs/ that it fits. No code.
#![tactic(auto)]
