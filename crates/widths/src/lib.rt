// What is read, run and returned fits the bytes that it is kept in; there is no code here.
#![tactic(auto)]
