// What follows from the promises of the coprocessor's calls; there is no code here.
#![tactic(auto)]
