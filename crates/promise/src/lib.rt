// No code: specs/Promise.antt states demand 3 of the definition's public calls, and proofs/ prove it.
#![tactic(auto)]
