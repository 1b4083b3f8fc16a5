// Covered glyphs with their items, and estimates: definitions in specs/, and their laws in proofs/; no code.
#![tactic(auto)]
