// No code: what is promised of any call, whatever tables it is about, in specs/ as statements and in proofs/ as laws.
#![tactic(auto)]
