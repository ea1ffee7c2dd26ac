// Taking nodes out of a file: one trimming, the tally, and every list of trimmings, as definitions (specs/) and laws (proofs/), and no code.
#![tactic(auto)]
