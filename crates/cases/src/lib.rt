// The worked cases of the rule book as one table; there is no code here.
#![tactic(auto)]
