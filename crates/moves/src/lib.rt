// The move to the next position: pointers, E and counters. It never reads memory.
#![tactic(auto)]

use parts::drawing::Drawing;
use parts::shapes::{Figure, Point, Pointers};
use pixels::Map;

pub mod decoded;
pub mod passage;
pub mod pens;
pub mod steps;
mod turns;
pub mod ways;

// One pointer's part of a step; a step is a point of two.
#[derive(Clone, Copy, PartialEq, Eq)]
pub enum Turn {
    Stay,
    Forth,
    Back,
}

// Which way a drawing goes: the octant's signs, a line's step along its major axis, whether it is a read form, whether it inverts,
// and whether it draws an area boundary.
#[derive(Clone, Copy)]
pub struct Course {
    pub x: Turn,
    pub y: Turn,
    pub straight: Point<Turn>,
    pub read: bool,
    pub inverts: bool,
    pub bounds: bool,
}

// How the pen comes to the next position: along a step of a line or code, to the next column of a row, over a row's end, or not at
// all; and the drawing in hand there. Along a step, source and pattern go by `from` and the destination by `to`; the parts of both go by
// themselves, so that a loop over positions need not pack them.
#[derive(Clone, Copy)]
pub(crate) enum Way {
    Along {
        from_x: Turn,
        from_y: Turn,
        to_x: Turn,
        to_y: Turn,
        e: i32,
        drawing: Drawing,
    },
    Column {
        drawing: Drawing,
    },
    Row {
        drawing: Drawing,
    },
    Here {
        drawing: Drawing,
    },
}

// A map in which a pointer steps, and whether the drawing uses it. It is no Option: definitions and laws of the crates above (`taken_map`,
// `is_blended`) speak of the map also where it is not used.
#[derive(Clone, Copy)]
pub struct Ground {
    pub map: Map,
    pub used: bool,
}

// What the moves need, which a drawing does not change: which way it goes, the maps of the source and pattern pointers, the
// figure, K1 and K2.
#[derive(Clone, Copy)]
pub struct Travel {
    pub course: Course,
    pub source: Ground,
    pub pattern: Ground,
    pub figure: Figure,
    pub k1: i32,
    pub k2: i32,
}

// What a drawing changes beside memory.
#[derive(Clone, Copy)]
pub struct Pen {
    pub pointers: Pointers,
    pub e: i32,
    pub drawing: Drawing,
}
