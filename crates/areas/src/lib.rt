// What follows for outlines and area fills from the definitions of lines, codes and blocks; there is no code here.
#![tactic(auto)]
