// The bytes of a state image, and the words that registers read back: all that knows no record.
#![tactic(auto)]

pub mod counters;
pub mod laying;
pub mod layout;
pub mod reading;
mod stored;
pub mod words;
