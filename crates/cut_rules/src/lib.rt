// The cut rule over items and costs: definitions in specs/, and their laws in proofs/; no code.
#![tactic(auto)]
