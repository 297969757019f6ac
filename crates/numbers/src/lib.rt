// Numbers of the register bank: bytes, reductions, and numbers that come round.
#![tactic(auto)]

pub mod bytes;
pub mod circles;
