ghost use Rattle.std.specs.Prelude.{◌≡◌, pos, ◌-ℤ◌};
ghost use Rattle.std.specs.Int.Signed.{lt_z};
ghost use Rattle.numbers.specs.Choose.{choose};
ghost use Rattle.places.specs.Places.{is_within, column_of, place_x, mask_x, mask_y, on_map, in_mask};

use crate::decoded::named_mask;
use crate::{Brush, MaskMode};
use moves::Pen;
use parts::shapes::Point;

// A destination, counted from an origin.
fn place_from(origin: u16, z: i16) -> i32
    ensures { result ≡ z -ℤ pos origin }
{
    z as i32 - origin as i32
}

// Whether that place lies from 0 to the last column or row; both edges are inside. A range's `contains` is no plainer than the two
// tests, and asks its bounds by reference and by branches.
fn is_within(origin: u16, last: u16, z: i16) -> bool
    ensures { result ≡ is_within last (z -ℤ pos origin) }
{
    let place = place_from(origin, z);
    (0 <= place) & (place <= last as i32)
}

// The same place as a column or row, 0 where it is below 0.
fn column_of(origin: u16, z: i16) -> u16
    ensures { result ≡ column_of (z -ℤ pos origin) }
{
    place_from(origin, z).max(0) as u16
}

// The destination's X, and in an area boundary column 0 for one left of the map.
fn place_x(brush: Brush, pen: Pen) -> i16
    ensures { result ≡ place_x brush pen }
{
    brush.edge.max(pen.pointers.destination.x)
}

// The destination's column and row.
pub fn destination_of(brush: Brush, pen: Pen) -> Point<u16>
    ensures { (result.x ≡ column_of (place_x brush pen)) × (result.y ≡ column_of pen.pointers.destination.y) }
{
    Point {
        x: column_of(0, place_x(brush, pen)),
        y: column_of(0, pen.pointers.destination.y),
    }
}

// The mask pixel's column and row.
pub fn mask_of(brush: Brush, pen: Pen) -> Point<u16>
    ensures { (result.x ≡ column_of (mask_x brush pen)) × (result.y ≡ column_of (mask_y brush pen)) }
{
    Point {
        x: column_of(brush.mask.origin.x, place_x(brush, pen)),
        y: column_of(brush.mask.origin.y, pen.pointers.destination.y),
    }
}

// Whether the destination is inside its map.
pub fn on_map(brush: Brush, pen: Pen) -> bool
    ensures { result ≡ on_map brush pen }
{
    is_within(0, brush.destination.width, place_x(brush, pen))
        & is_within(0, brush.destination.height, pen.pointers.destination.y)
}

// Whether the destination is inside the mask boundary, where there is one.
pub fn in_mask(brush: Brush, pen: Pen) -> bool
    ensures { result ≡ in_mask brush pen }
{
    named_mask(brush.mask.mode) == MaskMode::Disabled
        || (is_within(
            brush.mask.origin.x,
            brush.mask.map.width,
            place_x(brush, pen),
        ) & is_within(
            brush.mask.origin.y,
            brush.mask.map.height,
            pen.pointers.destination.y,
        ))
}
