// What edition 2 guarantees of what a call leaves in the caller's buffers: statements in specs/, and their theorems in proofs/; no code.
#![tactic(auto)]
