// The theory of a grammar's machine: see proofs/. No code.

#![tactic(auto)]
