// The bench program's console: what a line of its input asks for, what comes of that, and how it is written.
#![tactic(auto)]

pub mod answers;
pub mod commands;
mod digits;
pub mod gather;
pub mod texts;
mod words;

// What a line asks for: one of four kinds, which one match tells apart. A Result with an Option in it would say the same in two
// layers.
#[derive(Clone, Copy)]
pub enum Command {
    Write {
        offset: u32,
        length: u32,
        value: u32,
    },
    Run {
        allowance: u32,
    },
    Blank,
    Neither,
}

// What comes of a command.
#[derive(Clone, Copy)]
pub enum Answer {
    Done { positions: u32 },
    Refused { number: u32 },
    Nothing,
    Neither,
}

// What stands for a number that is wider than 32 bits: its low bits, or the largest number. The definition of a line's numbers goes
// by these two kinds, so a closure in their place would need a clause that says which of them it is.
#[derive(Clone, Copy)]
pub(crate) enum Wide {
    Low,
    Largest,
}
