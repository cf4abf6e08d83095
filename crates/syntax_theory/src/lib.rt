// The theory of typed grammars: specs/ has what one means and which rules are a line's, proofs/ that the grammar built of its lines is right. No code.

#![tactic(auto)]
