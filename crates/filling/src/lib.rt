// The search of `fill` over programs in the place of texts: definitions in specs/, and that it is document 02's in proofs/.
#![tactic(auto)]
