// Nothing runs here: the crate is its definitions (specs/) and its laws (proofs/).
#![tactic(auto)]
