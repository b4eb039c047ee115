//! Items and dependencies, and the clerk's order of them: definitions (`specs/`), their laws and theorems (`proofs/`). No code.
#![tactic(auto)]
