// The fields of an image, laid one after another.

ghost use Rattle.std.specs.Prelude.{◌≡◌, ◌+◌, ◌≤◌, ◌++◌};
ghost use Rattle.std.proofs.lemmas.List.Edits.{sets};
ghost use Rattle.numbers.specs.Bytes.{le};
ghost use Rattle.image.specs.Layout as defined;
ghost use Rattle.image.specs.Fields.{laid, counter_fields, head_fields, map_fields, maps_fields, fields_of};
ghost use Rattle.image.specs.Inner.{term_bytes, mix_bytes, colour_bytes, low_bytes, high_bytes};

use crate::counters::{Counters, counters_of};
use crate::layout;
use crate::layout::BYTES;
use crate::stored::Stored;
use numbers::bytes::store;
use parts::drawing::Drawing;
use parts::shapes::{Colours, Point, Registers, Terms};
use pixels::Map;

// A number, in as many bytes as its field has.
fn lay_number<T: Stored>(number: T, offset: usize, buffer: &mut [u8; BYTES])
    requires { offset + T.BYTES ≤ defined.image_length }
    ensures { buffer.new ≡ sets buffer.old offset (le T.BYTES (T.stored number)) }
{
    store(buffer, offset, T::BYTES, number.to_word());
}

// State, positions done, rows or codes done, codes.
#[tactic(auto, unfolding(numbers::specs::Bytes::le, crate::specs::Fields::laid, crate::specs::Fields::counter_fields))]
fn lay_counters(k: Counters, buffer: &mut [u8; BYTES])
    ensures { buffer.new ≡ sets buffer.old (defined.state).from (laid (counter_fields k)) }
{
    lay_number(k.state, layout::STATE_AT, buffer);
    lay_number(k.done, layout::DONE_AT, buffer);
    lay_number(k.passed, layout::PASSED_AT, buffer);
    lay_number(k.count, layout::COUNT_AT, buffer);
}

// Mark, version, size, the drawing's counters, map index.
#[tactic(auto, unfolding(numbers::specs::Bytes::le, crate::specs::Fields::laid, crate::specs::Fields::counter_fields, crate::specs::Fields::head_fields))]
fn lay_head(size: u32, index: u8, k: Counters, buffer: &mut [u8; BYTES])
    ensures { buffer.new ≡ sets buffer.old 0 (laid (head_fields k size index)) }
{
    store(buffer, layout::MARK_AT, 3, layout::MARK);
    store(buffer, layout::VERSION_AT, 2, layout::VERSION);
    lay_number(size, layout::SIZE_AT, buffer);
    lay_counters(k, buffer);
    lay_number(index, layout::INDEX_AT, buffer);
}

// Base, width, height, format.
#[tactic(auto, unfolding(numbers::specs::Bytes::le, crate::specs::Fields::laid, crate::specs::Fields::map_fields))]
fn lay_map(map: Map, offset: usize, buffer: &mut [u8; BYTES])
    requires { offset + 9 ≤ defined.image_length }
    ensures { buffer.new ≡ sets buffer.old offset (laid (map_fields 0 map)) }
{
    lay_number(map.base, offset, buffer);
    lay_number(map.width, offset + 4, buffer);
    lay_number(map.height, offset + 6, buffer);
    lay_number(map.format, offset + 8, buffer);
}

#[tactic(auto, unfolding(numbers::specs::Bytes::le, crate::specs::Fields::laid, crate::specs::Fields::map_fields, crate::specs::Fields::maps_fields, rules::specs::Maps::map_at))]
fn lay_maps(maps: [Map; 4], buffer: &mut [u8; BYTES])
    ensures { buffer.new ≡ sets buffer.old (defined.map_base 0).from (laid (maps_fields maps)) }
{
    lay_map(maps[0], layout::MASK_MAP_AT, buffer);
    lay_map(maps[1], layout::MAP_A_AT, buffer);
    lay_map(maps[2], layout::MAP_B_AT, buffer);
    lay_map(maps[3], layout::MAP_C_AT, buffer);
}

// E, K1 and K2.
#[tactic(auto, unfolding(numbers::specs::Bytes::le, crate::specs::Inner::term_bytes))]
fn lay_terms(terms: Terms, buffer: &mut [u8; BYTES])
    ensures { buffer.new ≡ sets buffer.old (defined.place_from 0x20) (term_bytes terms) }
{
    lay_number(terms.e, layout::E_AT, buffer);
    lay_number(terms.k1, layout::K1_AT, buffer);
    lay_number(terms.k2, layout::K2_AT, buffer);
}

// The two mixes and the compare condition.
#[tactic(auto, unfolding(numbers::specs::Bytes::le, crate::specs::Inner::mix_bytes))]
fn lay_mixes(colours: Colours, buffer: &mut [u8; BYTES])
    ensures { buffer.new ≡ sets buffer.old (defined.place_from 0x48) (mix_bytes colours) }
{
    lay_number(colours.foreground.mix, layout::FOREGROUND_MIX_AT, buffer);
    lay_number(colours.background.mix, layout::BACKGROUND_MIX_AT, buffer);
    lay_number(colours.compare.condition, layout::CONDITION_AT, buffer);
}

// The compare value, the masks and the colours.
#[tactic(auto, unfolding(numbers::specs::Bytes::le, crate::specs::Inner::colour_bytes))]
fn lay_colours(colours: Colours, buffer: &mut [u8; BYTES])
    ensures { buffer.new ≡ sets buffer.old (defined.place_from 0x4C) (colour_bytes colours) }
{
    lay_number(colours.compare.value, layout::VALUE_AT, buffer);
    lay_number(colours.planes, layout::PLANES_AT, buffer);
    lay_number(colours.carries, layout::CARRIES_AT, buffer);
    lay_number(colours.foreground.colour, layout::FOREGROUND_AT, buffer);
    lay_number(colours.background.colour, layout::BACKGROUND_AT, buffer);
}

// Two numbers, one after the other.
#[tactic(auto, using(crate::proofs::LayLaws::sets_append, numbers::proofs::ByteLaws::length_le))]
fn lay_point<T: Stored>(point: Point<T>, offset: usize, buffer: &mut [u8; BYTES])
    requires { offset + (T.BYTES + T.BYTES) ≤ defined.image_length }
    ensures { buffer.new ≡ sets buffer.old offset (le T.BYTES (T.stored point.x) ++ le T.BYTES (T.stored point.y)) }
{
    lay_number(point.x, offset, buffer);
    lay_number(point.y, offset + T::BYTES, buffer);
}

// Every register from 20 to 63 hex.
#[tactic(auto, unfolding(numbers::specs::Bytes::le, crate::specs::Inner::term_bytes, crate::specs::Inner::mix_bytes, crate::specs::Inner::colour_bytes, crate::specs::Inner::point_bytes, crate::specs::Inner::low_bytes))]
fn lay_lower(registers: Registers, buffer: &mut [u8; BYTES])
    ensures { buffer.new ≡ sets buffer.old (defined.place_from 0x20) (low_bytes registers) }
{
    lay_terms(registers.terms, buffer);
    lay_number(registers.figure.steps, layout::STEPS_AT, buffer);
    lay_mixes(registers.colours, buffer);
    lay_colours(registers.colours, buffer);
    lay_point(registers.figure.dimensions, layout::DIMENSIONS_AT, buffer);
}

// Every register from 6C to 7F hex.
#[tactic(auto, unfolding(numbers::specs::Bytes::le, crate::specs::Inner::point_bytes, crate::specs::Inner::spot_bytes, crate::specs::Inner::high_bytes))]
fn lay_upper(registers: Registers, buffer: &mut [u8; BYTES])
    ensures { buffer.new ≡ sets buffer.old (defined.place_from 0x6C) (high_bytes registers) }
{
    lay_point(registers.figure.origin, layout::ORIGIN_AT, buffer);
    lay_point(registers.pointers.source, layout::SOURCE_AT, buffer);
    lay_point(registers.pointers.pattern, layout::PATTERN_AT, buffer);
    lay_point(
        registers.pointers.destination,
        layout::DESTINATION_AT,
        buffer,
    );
    lay_number(registers.figure.operations, layout::OPERATIONS_AT, buffer);
}

// Lays the whole image into a buffer of its length.
#[tactic(auto, using(crate::proofs::LayLaws::lay_fields))]
pub fn lay(
    size: u32,
    maps: [Map; 4],
    registers: Registers,
    drawing: Drawing,
    buffer: &mut [u8; BYTES],
)
    ensures { buffer.new ≡ laid (fields_of size maps registers drawing) }
{
    lay_head(size, registers.index, counters_of(drawing), buffer);
    lay_maps(maps, buffer);
    lay_lower(registers, buffer);
    lay_upper(registers, buffer);
}
