//! For the reviewer: the interface paper's table of cases as one statement, and the empty programs that the contracts rule out. No code.
#![tactic(auto)]
