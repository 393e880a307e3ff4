// Examples that pin the definitions, one row for each sentence of the papers; there is no code here.
#![tactic(auto)]
