// Where a position lies, and what its drawing mode holds back; and what a position needs beside its moves.
#![tactic(auto)]

use mixes::Depth;
use moves::Travel;
use parts::shapes::{Colours, Point};
use pixels::Map;

pub mod decoded;
pub mod modes;
pub mod places;

// What the mask keeps back: nothing, what lies outside its boundary, or that and what lies on a pixel of its map that is 0.
#[derive(Clone, Copy, PartialEq, Eq)]
pub enum MaskMode {
    Disabled,
    Boundary,
    Enabled,
}

// The mask: its mode's number, its map, and where its map begins on the destination.
#[derive(Clone, Copy)]
pub struct Mask {
    pub mode: u8,
    pub map: Map,
    pub origin: Point<u16>,
}

// What the drawing mode keeps back of each line and code: nothing, its first position, its last, or all that do not bound an area.
#[derive(Clone, Copy, PartialEq, Eq)]
pub enum Mode {
    AllPixels,
    FirstNull,
    LastNull,
    AreaBoundary,
}

// Where a drawing's pixels come from: whether the pattern is made from the source, which of foreground and background take
// the source pixel, whether an area is filled, and the drawing mode's number.
#[derive(Clone, Copy)]
pub struct Flow {
    pub derived: bool,
    pub foreground: bool,
    pub background: bool,
    pub fills: bool,
    pub mode: u8,
}

// What a position needs beside its moves, which a drawing does not change; `edge` is the lowest X that its destination counts as.
#[derive(Clone, Copy)]
pub struct Brush {
    pub destination: Map,
    pub mask: Mask,
    pub edge: i16,
    pub flow: Flow,
    pub colours: Colours,
    pub depth: Depth,
}

// What a drawing does not change, decoded once.
#[derive(Clone, Copy)]
pub struct Setup {
    pub travel: Travel,
    pub brush: Brush,
}
