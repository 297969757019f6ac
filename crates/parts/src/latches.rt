// What each group of registers is after a write, register by register; one that the write does not reach is handed on whole.

ghost use Rattle.std.specs.Prelude.{◌≡◌, ◌+◌, ◌≤◌};
ghost use Rattle.parts.specs.Registers.{whole, twelve};
ghost use Rattle.parts.specs.Latches as defined;

use crate::shapes::{Colours, Compare, Figure, Ink, Point, Pointers, Registers, Terms};
use crate::takes::{
    take_bits, take_byte, take_destination, take_term, take_twelve_bits, take_word, touches,
};
use numbers::bytes::Write;
use pixels::Map;

const MAP_INDEX: u8 = 0x12;

const MAP_BASE: u8 = 0x14;

const MAP_WIDTH: u8 = 0x18;

const MAP_HEIGHT: u8 = 0x1A;

const MAP_FORMAT: u8 = 0x1C;

const E: u8 = 0x20;

const K1: u8 = 0x24;

const K2: u8 = 0x28;

const STEPS: u8 = 0x2C;

const FOREGROUND_MIX: u8 = 0x48;

const BACKGROUND_MIX: u8 = 0x49;

const COMPARE_CONDITION: u8 = 0x4A;

const COMPARE_VALUE: u8 = 0x4C;

const PLANES: u8 = 0x50;

const CARRIES: u8 = 0x54;

const FOREGROUND_COLOUR: u8 = 0x58;

const BACKGROUND_COLOUR: u8 = 0x5C;

const DIMENSIONS: u8 = 0x60;

const ORIGIN: u8 = 0x6C;

const SOURCE: u8 = 0x70;

const PATTERN: u8 = 0x74;

const DESTINATION_X: u8 = 0x78;

const DESTINATION_Y: u8 = 0x7A;

const OPERATIONS: u8 = 0x7C;

// The map that the map index names, after the write.
pub fn latch_map(map: Map, w: Write) -> Map
    ensures { result ≡ defined.map_latched w map }
{
    if touches(9, MAP_BASE, w) {
        Map {
            base: take_word(map.base, MAP_BASE, w),
            width: take_twelve_bits(map.width, MAP_WIDTH, w),
            height: take_twelve_bits(map.height, MAP_HEIGHT, w),
            format: take_bits(4, map.format, MAP_FORMAT, w),
        }
    } else {
        map
    }
}

// E, K1 and K2.
fn latch_terms(terms: Terms, w: Write) -> Terms
    ensures { result ≡ defined.terms_latched w terms }
{
    if touches(12, E, w) {
        Terms {
            e: take_term(terms.e, E, w),
            k1: take_term(terms.k1, K1, w),
            k2: take_term(terms.k2, K2, w),
        }
    } else {
        terms
    }
}

// A mix and its colour, each at its offset.
fn latch_ink(ink: Ink, mix_at: u8, colour_at: u8, w: Write) -> Ink
    ensures { result ≡ defined.ink_latched (whole 1 mix_at) (whole 4 colour_at) w ink }
{
    Ink {
        mix: take_byte(ink.mix, mix_at, w),
        colour: take_word(ink.colour, colour_at, w),
    }
}

// The compare condition and its value.
fn latch_compare(compare: Compare, w: Write) -> Compare
    ensures { result ≡ defined.compare_latched w compare }
{
    Compare {
        condition: take_bits(3, compare.condition, COMPARE_CONDITION, w),
        value: take_word(compare.value, COMPARE_VALUE, w),
    }
}

// Two numbers of 12 bits, the first at `at` and the second two bytes on. The destination's goes by itself: the definitions take the one by
// `taken` and the other by `taken_onto`.
fn latch_point(point: Point<u16>, at: u8, w: Write) -> Point<u16>
    requires { at ≤ 125 }
    ensures { result ≡ defined.point_latched (twelve at) (twelve (at + 2)) w point }
{
    Point {
        x: take_twelve_bits(point.x, at, w),
        y: take_twelve_bits(point.y, at + 2, w),
    }
}

// The destination pointer.
fn latch_spot(spot: Point<i16>, w: Write) -> Point<i16>
    ensures { result ≡ defined.spot_latched w spot }
{
    Point {
        x: take_destination(spot.x, DESTINATION_X, w),
        y: take_destination(spot.y, DESTINATION_Y, w),
    }
}

// Mixes, colours, the comparison and the masks.
fn latch_colours(colours: Colours, w: Write) -> Colours
    ensures { result ≡ defined.colours_latched w colours }
{
    if touches(24, FOREGROUND_MIX, w) {
        Colours {
            foreground: latch_ink(colours.foreground, FOREGROUND_MIX, FOREGROUND_COLOUR, w),
            background: latch_ink(colours.background, BACKGROUND_MIX, BACKGROUND_COLOUR, w),
            compare: latch_compare(colours.compare, w),
            planes: take_word(colours.planes, PLANES, w),
            carries: take_word(colours.carries, CARRIES, w),
        }
    } else {
        colours
    }
}

// What is drawn.
fn latch_figure(figure: Figure, w: Write) -> Figure
    ensures { result ≡ defined.figure_latched w figure }
{
    Figure {
        operations: take_word(figure.operations, OPERATIONS, w),
        steps: take_word(figure.steps, STEPS, w),
        dimensions: latch_point(figure.dimensions, DIMENSIONS, w),
        origin: latch_point(figure.origin, ORIGIN, w),
    }
}

// The pointers.
fn latch_pointers(pointers: Pointers, w: Write) -> Pointers
    ensures { result ≡ defined.pointers_latched w pointers }
{
    if touches(12, SOURCE, w) {
        Pointers {
            source: latch_point(pointers.source, SOURCE, w),
            pattern: latch_point(pointers.pattern, PATTERN, w),
            destination: latch_spot(pointers.destination, w),
        }
    } else {
        pointers
    }
}

// Every register but those of the maps, after the write.
pub fn latch_registers(registers: Registers, w: Write) -> Registers
    ensures { result ≡ defined.registers_latched w registers }
{
    Registers {
        index: take_bits(2, registers.index, MAP_INDEX, w),
        terms: latch_terms(registers.terms, w),
        colours: latch_colours(registers.colours, w),
        figure: latch_figure(registers.figure, w),
        pointers: latch_pointers(registers.pointers, w),
    }
}
