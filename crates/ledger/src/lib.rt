// Nothing runs here: the crate is its definitions (specs/) and its theorems (proofs/).
#![tactic(auto)]
