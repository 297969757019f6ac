// The groups of the coprocessor's record, what each takes from a register write, and whether it is reduced.
#![tactic(auto)]

pub mod drawing;
pub mod fresh;
pub mod latches;
pub mod moved;
pub mod reduced;
pub mod refusals;
pub mod registers;
pub mod shapes;
pub mod takes;
