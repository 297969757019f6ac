ghost use Rattle.std.specs.Prelude.{◌≡◌};
ghost use Rattle.places.specs.Places.{named_mode, named_mask};
ghost use Rattle.places.specs.Decoded.{edge_of, flow_of, brush_of};

use crate::{Brush, Flow, Mask, MaskMode, Mode};
use mixes::depth_of;
use parts::shapes::{Colours, Figure};
use pixels::{Map, bits_of};
use rules::maps::map_at;
use rules::operations::{
    background_source, destination_field, foreground_source, is_fill, mask_mode, mode_of,
    pattern_field,
};

// The drawing mode that a number names; one that the register's two bits do not hold draws all pixels, as 0 does.
pub fn named_mode(number: u8) -> Mode
    ensures { result ≡ named_mode number }
{
    match number {
        1 => Mode::FirstNull,
        2 => Mode::LastNull,
        3 => Mode::AreaBoundary,
        _ => Mode::AllPixels,
    }
}

// The mask mode that a number names; a start refuses 3, and where a record holds it, as at any above, there is a boundary alone.
pub fn named_mask(number: u8) -> MaskMode
    ensures { result ≡ named_mask number }
{
    match number {
        0 => MaskMode::Disabled,
        2 => MaskMode::Enabled,
        _ => MaskMode::Boundary,
    }
}

// The lowest X that a destination counts as: column 0 where an area boundary is drawn, and otherwise any.
fn edge_of(operations: u32) -> i16
    ensures { result ≡ edge_of operations }
{
    if mode_of(operations) == 3 { 0 } else { -2048 }
}

// Where a drawing's pixels come from, and its drawing mode.
fn flow_of(operations: u32) -> Flow
    ensures { result ≡ flow_of operations }
{
    Flow {
        derived: pattern_field(operations) == 9,
        foreground: foreground_source(operations) == 2,
        background: background_source(operations) == 2,
        fills: is_fill(operations),
        mode: mode_of(operations) as u8,
    }
}

// What a position needs beside its moves.
pub fn brush_of(figure: Figure, maps: [Map; 4], colours: Colours) -> Brush
    ensures { result ≡ brush_of figure maps colours }
{
    let operations = figure.operations;
    let destination = map_at(maps, destination_field(operations));
    Brush {
        destination,
        mask: Mask {
            mode: mask_mode(operations) as u8,
            map: maps[0],
            origin: figure.origin,
        },
        edge: edge_of(operations),
        flow: flow_of(operations),
        colours,
        depth: depth_of(bits_of(destination.format), colours.planes),
    }
}
