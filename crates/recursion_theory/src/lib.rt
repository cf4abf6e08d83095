// The theory of grammars without left recursion: see proofs/. No code.

#![tactic(auto)]
