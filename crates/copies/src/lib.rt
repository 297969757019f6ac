// What follows for block copies between maps of either order from the definitions of blocks and pixels; there is no code here.
#![tactic(auto)]
