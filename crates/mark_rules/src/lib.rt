// Mark-to-base tables in a store: definitions in specs/, and their laws in proofs/; no code.
#![tactic(auto)]
