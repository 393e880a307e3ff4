// Definitions and proofs only: what W12 promises of four stations in one run, over the joint run of `rules`.
#![tactic(auto)]
