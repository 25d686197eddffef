// No code: specs/ states the user's demands about what the C functions promise, proofs/ proves them.
#![tactic(auto)]
