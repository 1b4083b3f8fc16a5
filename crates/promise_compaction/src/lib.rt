// What is promised of a compaction: statements in specs/, theorems in proofs/; no code.
#![tactic(auto)]
