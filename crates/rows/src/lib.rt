// A row of pixels drawn as whole bytes.
#![tactic(auto)]

mod bytes;
mod lanes;
pub mod patterns;
pub mod ranges;
pub mod slides;
pub mod sweeps;
pub mod traces;
pub mod wholes;

use mixes::logical::Blend;

// A blend of every pixel in a byte at once.
pub type Whole = Blend<u8>;

// Pixels of one format, one after another, back or forth: from the pixel number `from` of a map that begins at `source`, to the
// pixel number `to` of one that begins at `destination`.
#[derive(Clone, Copy)]
pub struct Lane {
    pub format: u8,
    pub back: bool,
    pub source: u32,
    pub destination: u32,
    pub from: u32,
    pub to: u32,
}

// Single pixels of a map that begins at `base`, from pixel number `at` on: each step adds `straight` to the number and K1 to the error
// term where that is below 0, and otherwise `turned` and K2. The term is 8,192 higher than it stands for, and kept below 16,384.
#[derive(Clone, Copy)]
pub struct Trail {
    pub format: u8,
    pub base: u32,
    pub at: u32,
    pub e: u32,
    pub k1: u32,
    pub k2: u32,
    pub straight: u32,
    pub turned: u32,
}

// How far a trail was gone: the number of the pixel there, the error term, and the pixels made.
#[derive(Clone, Copy)]
pub struct Traced {
    pub at: u32,
    pub e: u32,
    pub done: u32,
}
