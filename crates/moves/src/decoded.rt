ghost use Rattle.std.specs.Prelude.{◌≡◌, ◌||◌, eqb};
ghost use Rattle.moves.specs.Decoded.{sign_of, straight_of, course_of, travel_of};

use crate::{Course, Ground, Travel, Turn};
use parts::shapes::{Figure, Point, Terms};
use pixels::Map;
use rules::maps::map_at;
use rules::operations::{
    function_of, mode_of, octant_of, pattern_field, source_field, uses_pattern, uses_source,
};

// A sign bit's turn.
fn sign_of(bit: u32) -> Turn
    ensures { result ≡ sign_of bit }
{
    if bit == 1 { Turn::Back } else { Turn::Forth }
}

// A line's step along its major axis.
fn straight_of(octant: u32) -> Point<Turn>
    ensures { result ≡ straight_of octant }
{
    if octant % 2 == 1 {
        Point {
            x: Turn::Stay,
            y: sign_of(octant / 2 % 2),
        }
    } else {
        Point {
            x: sign_of(octant / 4 % 2),
            y: Turn::Stay,
        }
    }
}

// Whether a function reads: draw and step read, or line draw read.
fn is_read(function: u32) -> bool
    ensures { result ≡ eqb function 2 || eqb function 3 }
{
    matches!(function, 2 | 3)
}

// Which way a drawing goes. The function and the drawing mode are the register's own numbers, each asked here and nowhere after.
fn course_of(operations: u32) -> Course
    ensures { result ≡ course_of operations }
{
    let function = function_of(operations);
    let octant = octant_of(operations);
    Course {
        x: sign_of(octant / 4 % 2),
        y: sign_of(octant / 2 % 2),
        straight: straight_of(octant),
        read: is_read(function),
        inverts: function == 9,
        bounds: mode_of(operations) == 3,
    }
}

// What the moves of a drawing need.
pub fn travel_of(figure: Figure, maps: [Map; 4], terms: Terms) -> Travel
    ensures { result ≡ travel_of figure maps terms }
{
    let operations = figure.operations;
    Travel {
        course: course_of(operations),
        source: Ground {
            used: uses_source(operations),
            map: map_at(maps, source_field(operations)),
        },
        pattern: Ground {
            used: uses_pattern(operations),
            map: map_at(maps, pattern_field(operations)),
        },
        figure,
        k1: terms.k1,
        k2: terms.k2,
    }
}
