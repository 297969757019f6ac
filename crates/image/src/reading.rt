// The numbers that an image has at an offset, and each group of registers at its own.

ghost use Rattle.std.specs.Prelude.{◌≡◌, ◌&&◌, ◌+◌, ◌≤◌, eqb};
ghost use Rattle.image.specs.Layout as defined;
ghost use Rattle.image.specs.Layout.{at, field_at};
ghost use Rattle.image.specs.Read as read;

use crate::counters::Counters;
use crate::layout;
use crate::layout::BYTES;
use crate::stored::Stored;
use numbers::bytes::fetch;
use parts::shapes::{Colours, Compare, Figure, Ink, Point, Pointers, Registers, Terms};
use pixels::Map;

// The number that the image has at an offset.
#[tactic(auto, using(numbers::proofs::BytePartLaws::number_lt), unfolding(crate::specs::Layout::at))]
fn number_at<T: Stored>(buffer: &[u8; BYTES], offset: usize) -> T
    requires { offset + T.BYTES ≤ defined.image_length }
    ensures { result ≡ T.read (at offset T.BYTES buffer.now) }
{
    T::from_word(fetch(buffer, offset, T::BYTES))
}

// The counters of the drawing in hand.
#[tactic(auto, unfolding(crate::specs::Read::counters_from))]
pub fn counters_from(buffer: &[u8; BYTES]) -> Counters
    ensures { result ≡ read.counters_from buffer.now }
{
    Counters {
        state: number_at(buffer, layout::STATE_AT),
        done: number_at(buffer, layout::DONE_AT),
        passed: number_at(buffer, layout::PASSED_AT),
        count: number_at(buffer, layout::COUNT_AT),
    }
}

// The memory's size.
pub fn size_from(buffer: &[u8; BYTES]) -> u32
    ensures { result ≡ field_at defined.memory_size buffer.now }
{
    number_at(buffer, layout::SIZE_AT)
}

// A map's nine bytes.
fn map_from(buffer: &[u8; BYTES], offset: usize) -> Map
    requires { offset + 9 ≤ defined.image_length }
    ensures { result ≡ record {
      base = at offset 4 buffer.now;
      width = at (offset + 4) 2 buffer.now;
      height = at (offset + 6) 2 buffer.now;
      format = at (offset + 8) 1 buffer.now;
    } }
{
    Map {
        base: number_at(buffer, offset),
        width: number_at(buffer, offset + 4),
        height: number_at(buffer, offset + 6),
        format: number_at(buffer, offset + 8),
    }
}

#[tactic(auto, unfolding(crate::specs::Read::map_from, crate::specs::Read::maps_from))]
pub fn maps_from(buffer: &[u8; BYTES]) -> [Map; 4]
    ensures { result ≡ read.maps_from buffer.now }
{
    [
        map_from(buffer, layout::MASK_MAP_AT),
        map_from(buffer, layout::MAP_A_AT),
        map_from(buffer, layout::MAP_B_AT),
        map_from(buffer, layout::MAP_C_AT),
    ]
}

#[tactic(auto, unfolding(crate::specs::Read::terms_from))]
fn terms_from(buffer: &[u8; BYTES]) -> Terms
    ensures { result ≡ read.terms_from buffer.now }
{
    Terms {
        e: number_at(buffer, layout::E_AT),
        k1: number_at(buffer, layout::K1_AT),
        k2: number_at(buffer, layout::K2_AT),
    }
}

#[tactic(auto, unfolding(crate::specs::Read::ink_from, crate::specs::Read::colours_from))]
fn colours_from(buffer: &[u8; BYTES]) -> Colours
    ensures { result ≡ read.colours_from buffer.now }
{
    Colours {
        foreground: Ink {
            mix: number_at(buffer, layout::FOREGROUND_MIX_AT),
            colour: number_at(buffer, layout::FOREGROUND_AT),
        },
        background: Ink {
            mix: number_at(buffer, layout::BACKGROUND_MIX_AT),
            colour: number_at(buffer, layout::BACKGROUND_AT),
        },
        compare: Compare {
            condition: number_at(buffer, layout::CONDITION_AT),
            value: number_at(buffer, layout::VALUE_AT),
        },
        planes: number_at(buffer, layout::PLANES_AT),
        carries: number_at(buffer, layout::CARRIES_AT),
    }
}

// Two numbers, one after the other.
fn point_from<T: Stored>(buffer: &[u8; BYTES], offset: usize) -> Point<T>
    requires { offset + (T.BYTES + T.BYTES) ≤ defined.image_length }
    ensures { result ≡ record {
      x = T.read (at offset T.BYTES buffer.now);
      y = T.read (at (offset + T.BYTES) T.BYTES buffer.now);
    } }
{
    Point {
        x: number_at(buffer, offset),
        y: number_at(buffer, offset + T::BYTES),
    }
}

#[tactic(auto, unfolding(crate::specs::Read::point_from, crate::specs::Read::figure_from))]
fn figure_from(buffer: &[u8; BYTES]) -> Figure
    ensures { result ≡ read.figure_from buffer.now }
{
    Figure {
        operations: number_at(buffer, layout::OPERATIONS_AT),
        steps: number_at(buffer, layout::STEPS_AT),
        dimensions: point_from(buffer, layout::DIMENSIONS_AT),
        origin: point_from(buffer, layout::ORIGIN_AT),
    }
}

#[tactic(auto, unfolding(crate::specs::Read::point_from, crate::specs::Read::spot_from, crate::specs::Read::pointers_from))]
fn pointers_from(buffer: &[u8; BYTES]) -> Pointers
    ensures { result ≡ read.pointers_from buffer.now }
{
    Pointers {
        source: point_from(buffer, layout::SOURCE_AT),
        pattern: point_from(buffer, layout::PATTERN_AT),
        destination: point_from(buffer, layout::DESTINATION_AT),
    }
}

// Every register but those of the maps.
#[tactic(auto, unfolding(crate::specs::Read::registers_from))]
pub fn registers_from(buffer: &[u8; BYTES]) -> Registers
    ensures { result ≡ read.registers_from buffer.now }
{
    Registers {
        index: number_at(buffer, layout::INDEX_AT),
        terms: terms_from(buffer),
        colours: colours_from(buffer),
        figure: figure_from(buffer),
        pointers: pointers_from(buffer),
    }
}

// Whether the image has the mark and the version.
#[tactic(auto, unfolding(crate::specs::Layout::at))]
pub fn is_marked(buffer: &[u8; BYTES]) -> bool
    ensures { result ≡ eqb (field_at defined.mark buffer.now) defined.the_mark && eqb (field_at defined.version buffer.now) defined.the_version }
{
    (fetch(buffer, layout::MARK_AT, 3) == layout::MARK)
        & (fetch(buffer, layout::VERSION_AT, 2) == layout::VERSION)
}
