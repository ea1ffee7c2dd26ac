// What makes a file acceptable, as propositions: definitions (specs/) and laws (proofs/), and no code.
#![tactic(auto)]
