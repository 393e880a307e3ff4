// The rows of a read text nest; there is no code here.
#![tactic(auto)]
