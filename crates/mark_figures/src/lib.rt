// No code: figures of mark-to-base tables, in proofs/. A crate of its own, which no edit proves again.
#![tactic(auto)]
