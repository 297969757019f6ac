ghost use Rattle.std.specs.Prelude.{◌≡◌};
ghost use Rattle.numbers.specs.Choose.{choose};
ghost use Rattle.rules.specs.Starts as defined;

use crate::codes::{code_at, stops};
use crate::maps::map_at;
use crate::operations::{
    is_block, is_line, pattern_field, source_field, uses_pattern, uses_source,
};
use numbers::circles::remainder;
use parts::drawing::Drawing;
use parts::shapes::{Figure, Point, Pointers};
use pixels::Map;

// A used pointer's remainder by its map's size; an unused one stays.
#[tactic(auto, unfolding(crate::specs::Starts::turned))]
fn turned(used: bool, map: Map, p: Point<u16>) -> Point<u16>
    ensures { result ≡ choose used (defined.turned map p) p }
{
    if used {
        Point {
            x: remainder(p.x, map.width),
            y: remainder(p.y, map.height),
        }
    } else {
        p
    }
}

// The pointers after a start.
#[tactic(auto, unfolding(crate::specs::Starts::pointers_started))]
pub fn start_pointers(operations: u32, maps: [Map; 4], pointers: Pointers) -> Pointers
    ensures { result ≡ defined.pointers_started operations maps pointers }
{
    let source_map = map_at(maps, source_field(operations));
    let pattern_map = map_at(maps, pattern_field(operations));
    Pointers {
        source: turned(uses_source(operations), source_map, pointers.source),
        pattern: turned(uses_pattern(operations), pattern_map, pointers.pattern),
        ..pointers
    }
}

// The drawing that a start of `length` written bytes sets.
#[tactic(auto, unfolding(crate::specs::Starts::drawing_started))]
pub fn start_drawing(figure: Figure, length: u8) -> Drawing
    ensures { result ≡ defined.drawing_started figure length }
{
    if is_line(figure.operations) {
        return Drawing::Line {
            done: 0,
            rose: false,
        };
    }
    if is_block(figure.operations) {
        return Drawing::Block {
            column: 0,
            row: 0,
            inside: false,
        };
    }
    if stops(code_at(figure.steps, length, 0)) {
        return Drawing::Nothing { stopped: true };
    }
    Drawing::Codes {
        count: length,
        code: 0,
        done: 0,
    }
}
