ghost use Rattle.std.specs.Prelude.{◌≡◌};
ghost use Rattle.parts.specs.declared.drawing.Drawing.TheVariants.{Codes};
ghost use Rattle.rules.specs.Going.{counters_hold, pointers_hold};

use crate::codes::{code_at, is_count, none_stopped, steps_of, stops};
use crate::maps::{is_inside, map_at};
use crate::operations::{
    is_block, is_codes, is_fill, is_line, mode_of, pattern_field, source_field, uses_pattern,
    uses_source,
};
use parts::drawing::Drawing;
use parts::shapes::{Figure, Pointers};
use pixels::Map;

// Whether the codes can go on at this code and position.
#[tactic(auto, unfolding(crate::specs::Going::counters_hold, crate::specs::Codes::none_stopped))]
fn codes_hold(figure: Figure, count: u8, code: u16, done: u16) -> bool
    ensures { result ≡ counters_hold figure (Codes count code done) }
{
    let current = code_at(figure.steps, count, code);
    is_codes(figure.operations)
        & is_count(count)
        & (code < count as u16)
        & (none_stopped(figure.steps, count, code) & !stops(current))
        & (done <= steps_of(current))
}

// Whether a drawing in hand can go on from its counters.
#[tactic(auto, unfolding(crate::specs::Going::counters_hold))]
pub fn counters_hold(figure: Figure, drawing: Drawing) -> bool
    ensures { result ≡ counters_hold figure drawing }
{
    match drawing {
        Drawing::Nothing { .. } => true,
        Drawing::Line { done, rose } => {
            is_line(figure.operations)
                & (done <= figure.dimensions.x)
                & (!rose | ((mode_of(figure.operations) == 3) & (1 <= done)))
        }
        Drawing::Codes { count, code, done } => codes_hold(figure, count, code, done),
        Drawing::Block {
            column,
            row,
            inside,
        } => {
            is_block(figure.operations)
                & (column <= figure.dimensions.x)
                & (row <= figure.dimensions.y)
                & (!inside | (is_fill(figure.operations) & (1 <= column)))
        }
    }
}

// Whether the used source and pattern pointers lie in their maps.
#[tactic(auto, unfolding(crate::specs::Going::pointers_hold))]
pub fn pointers_hold(operations: u32, maps: [Map; 4], pointers: Pointers) -> bool
    ensures { result ≡ pointers_hold operations maps pointers }
{
    (!uses_source(operations) | is_inside(map_at(maps, source_field(operations)), pointers.source))
        & (!uses_pattern(operations)
            | is_inside(map_at(maps, pattern_field(operations)), pointers.pattern))
}
