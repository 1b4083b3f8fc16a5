// No code: document 01's figures W1 to W12, in proofs/. A crate of its own, which no edit proves again.
#![tactic(auto)]
