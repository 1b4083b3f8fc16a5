// The demands on the three calls on mark-to-base tables: statements in specs/, and their theorems in proofs/; no code.
#![tactic(auto)]
