// The theory of the judge's own steps: see proofs/. No code.

#![tactic(auto)]
