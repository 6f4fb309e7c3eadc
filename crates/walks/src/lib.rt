// No code: laws for a proof that goes along a function's code by hand. Nothing uses them now, for the check makes the
// proofs that they were for.
#![tactic(auto)]
