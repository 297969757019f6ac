// One position: what it finds, what becomes of it, and what it writes.
#![tactic(auto)]

use mixes::logical::Blend;
use pixels::Cell;

pub mod drawn;
pub mod inks;
mod judge;
mod look;
mod write;

// What becomes of a position: only `Painted` writes.
#[derive(Clone, Copy, PartialEq, Eq)]
pub enum Fate {
    Moved,
    Nulled,
    OutsideMap,
    OutsideMask,
    MaskZero,
    Compared,
    Painted,
}

// The logical mixes of foreground and background under the plane mask.
#[derive(Clone, Copy)]
pub struct Blends {
    pub foreground: Blend<u32>,
    pub background: Blend<u32>,
}

// What a position finds of its pattern: whether it is 1, and whether a fill is inside then.
#[derive(Clone, Copy)]
struct Pattern {
    one: bool,
    inside: bool,
}

// What a position finds where it may be painted: the destination's cell and pixel, and the source pixel.
#[derive(Clone, Copy)]
struct Target {
    cell: Cell,
    pixel: u32,
    source: u32,
}

// What a position finds: its pattern; and its target, or the fate that keeps it back before that is looked for.
#[derive(Clone, Copy)]
struct Sight {
    pattern: Pattern,
    target: Result<Target, Fate>,
}
