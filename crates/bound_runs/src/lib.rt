// What a bound says of runs: no run's count passes it, and no run that is allowed so many steps answers 21. There is no code here.
#![tactic(auto)]
