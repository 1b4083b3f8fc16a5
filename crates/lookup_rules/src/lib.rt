// Lookups of a list, and new tables entered in them: definitions in specs/, and their laws in proofs/; no code.
#![tactic(auto)]
