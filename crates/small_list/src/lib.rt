// Definitions and proofs only: the list of all small scripts (W14), and what is said of it.
#![tactic(auto)]
