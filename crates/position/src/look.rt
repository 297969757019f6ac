// All that a position reads: its pattern always, and where it may be painted the mask, and then the destination and the source.

ghost use Rattle.std.specs.Prelude.{◌≡◌, true, not, length};
ghost use Rattle.numbers.specs.Choose.{choose};
ghost use Rattle.pixels.specs.Inner.{cell_at};
ghost use Rattle.parts.specs.Drawings.{inside_of};
ghost use Rattle.places.specs.Places.{column_of, place_x, on_map, in_mask};
ghost use Rattle.position.specs.Fates as fates;
ghost use Rattle.position.specs.Within as within;
ghost use Rattle.position.specs.Within.{Within};
ghost use Rattle.position.specs.Inner.{pattern_read, source_read, Found, Seen};

use crate::judge::foresee;
use crate::{Fate, Pattern, Sight, Target};
use moves::Pen;
use parts::drawing::{Drawing, is_inside};
use pixels::{Cell, find, get, value};
use places::decoded::named_mask;
use places::places::{destination_of, mask_of};
use places::{Flow, MaskMode, Setup};

// Whether a fill is inside after a pattern pixel, which turns it where it is 1.
fn inside_after(one: bool, drawing: Drawing) -> bool
    ensures { result ≡ choose one (not (inside_of drawing)) (inside_of drawing) }
{
    let inside = is_inside(drawing);
    if one { !inside } else { inside }
}

// The pattern: its map's pixel, in a fill whether that is inside then, and 1 where the map is not used.
fn pattern_read(setup: Setup, memory: &[u8], pen: Pen) -> Pattern
    requires { (setup.brush.flow.fills ≡ true → setup.travel.pattern.used ≡ true) × Within setup (length memory.now) pen }
    ensures { result ≡ pattern_read setup memory.now pen }
{
    if !setup.travel.pattern.used {
        return Pattern {
            one: true,
            inside: false,
        };
    }
    let pixel = get(
        memory,
        setup.travel.pattern.map,
        pen.pointers.pattern.x,
        pen.pointers.pattern.y,
    );
    if setup.brush.flow.fills {
        let inside = inside_after(pixel != 0, pen.drawing);
        Pattern {
            one: inside,
            inside,
        }
    } else {
        Pattern {
            one: pixel != 0,
            inside: false,
        }
    }
}

// Whether the source pixel is read: a source field is 10, or the pattern is made from the source.
fn reads_source(flow: Flow) -> bool
    ensures { result ≡ within.reads_source flow }
{
    flow.foreground | flow.background | flow.derived
}

// The source pixel, and 0 where it is not read.
fn source_read(setup: Setup, memory: &[u8], pen: Pen) -> u32
    requires { Within setup (length memory.now) pen }
    ensures { result ≡ source_read setup memory.now pen }
{
    if reads_source(setup.brush.flow) {
        get(
            memory,
            setup.travel.source.map,
            pen.pointers.source.x,
            pen.pointers.source.y,
        )
    } else {
        0
    }
}

// Whether the mask pixel is 0, where its map is used; the destination is inside its map and the mask boundary.
fn is_on_zero(setup: Setup, memory: &[u8], pen: Pen) -> bool
    requires { Within setup (length memory.now) pen × (on_map setup.brush pen ≡ true) × (in_mask setup.brush pen ≡ true) }
    ensures { result ≡ fates.on_zero setup.brush memory.now pen }
{
    if named_mask(setup.brush.mask.mode) != MaskMode::Enabled {
        return false;
    }
    let at = mask_of(setup.brush, pen);
    get(memory, setup.brush.mask.map, at.x, at.y) == 0
}

// The destination's cell; the destination is inside its map and the mask boundary.
fn destination_cell(setup: Setup, memory: &[u8], pen: Pen) -> Cell
    requires { Within setup (length memory.now) pen × (on_map setup.brush pen ≡ true) × (in_mask setup.brush pen ≡ true) }
    ensures { result ≡ cell_at memory.now setup.brush.destination (column_of (place_x setup.brush pen)) (column_of pen.pointers.destination.y) }
{
    let at = destination_of(setup.brush, pen);
    find(memory, setup.brush.destination, at.x, at.y)
}

// The target of a position, all of whose pixels lie in the memory, or the fate that keeps it back.
fn target_read(setup: Setup, memory: &[u8], pen: Pen) -> Result<Target, Fate>
    requires { Within setup (length memory.now) pen }
    ensures { Found setup memory.now pen result }
{
    foresee(setup, pen)?;
    if is_on_zero(setup, memory, pen) {
        return Err(Fate::MaskZero);
    }
    let cell = destination_cell(setup, memory, pen);
    Ok(Target {
        cell,
        pixel: value(cell),
        source: source_read(setup, memory, pen),
    })
}

// What a position finds, all of whose pixels lie in the memory.
pub(crate) fn look(setup: Setup, memory: &[u8], pen: Pen) -> Sight
    requires { (setup.brush.flow.fills ≡ true → setup.travel.pattern.used ≡ true) × Within setup (length memory.now) pen }
    ensures { Seen setup memory.now pen result }
{
    Sight {
        pattern: pattern_read(setup, memory, pen),
        target: target_read(setup, memory, pen),
    }
}
