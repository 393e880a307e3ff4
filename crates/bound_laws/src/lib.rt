// Laws of the bounds of blocks and of the routes of calls among them; no code.
#![tactic(auto)]
