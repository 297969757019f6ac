// The rules of a start: what the pixel operations ask for, which maps they use, what is refused, and what a start sets.
#![tactic(auto)]

pub mod codes;
pub mod going;
pub mod maps;
pub mod operations;
pub mod rules;
pub mod starts;
