// Whether a group is as its reductions leave it: functions and not methods, since a map is another crate's and a term a plain number.

ghost use Rattle.std.specs.Prelude.{◌≡◌};
ghost use Rattle.parts.specs.Reduced as defined;

use crate::shapes::{Colours, Figure, Point, Pointers, Registers, Terms};
use pixels::Map;

// Whether width and height have 12 bits, and the format 4.
#[tactic(auto, unfolding(crate::specs::Reduced::map_reduced))]
pub fn map_is_reduced(map: Map) -> bool
    ensures { result ≡ defined.map_reduced map }
{
    (map.width < 4096) & (map.height < 4096) & (map.format < 16)
}

// Whether E, K1 or K2 is from -8,192 to 8,191.
#[tactic(auto, unfolding(crate::specs::Reduced::term_reduced))]
pub fn term_is_reduced(z: i32) -> bool
    ensures { result ≡ defined.term_reduced z }
{
    (-8192..8192).contains(&z)
}

// Whether each of E, K1 and K2 is.
#[tactic(auto, unfolding(crate::specs::Reduced::terms_reduced))]
fn terms_are_reduced(terms: Terms) -> bool
    ensures { result ≡ defined.terms_reduced terms }
{
    term_is_reduced(terms.e) & term_is_reduced(terms.k1) & term_is_reduced(terms.k2)
}

// Whether the condition has 3 bits.
#[tactic(auto, unfolding(crate::specs::Reduced::colours_reduced))]
fn colours_are_reduced(colours: Colours) -> bool
    ensures { result ≡ defined.colours_reduced colours }
{
    colours.compare.condition < 8
}

// Whether both numbers have 12 bits.
#[tactic(auto, unfolding(crate::specs::Reduced::point_reduced))]
fn point_is_reduced(point: Point<u16>) -> bool
    ensures { result ≡ defined.point_reduced point }
{
    (point.x < 4096) & (point.y < 4096)
}

// Whether dimensions and mask origin have.
#[tactic(auto, unfolding(crate::specs::Reduced::figure_reduced))]
fn figure_is_reduced(figure: Figure) -> bool
    ensures { result ≡ defined.figure_reduced figure }
{
    point_is_reduced(figure.dimensions) & point_is_reduced(figure.origin)
}

// Whether a destination pointer is from -2,048 to 6,143.
#[tactic(auto, unfolding(crate::specs::Reduced::destination_reduced))]
fn destination_is_reduced(z: i16) -> bool
    ensures { result ≡ defined.destination_reduced z }
{
    (-2048..6144).contains(&z)
}

// Whether both destination pointers are.
#[tactic(auto, unfolding(crate::specs::Reduced::spot_reduced))]
fn spot_is_reduced(spot: Point<i16>) -> bool
    ensures { result ≡ defined.spot_reduced spot }
{
    destination_is_reduced(spot.x) & destination_is_reduced(spot.y)
}

// Whether all three pointers are reduced.
#[tactic(auto, unfolding(crate::specs::Reduced::pointers_reduced))]
fn pointers_are_reduced(pointers: Pointers) -> bool
    ensures { result ≡ defined.pointers_reduced pointers }
{
    point_is_reduced(pointers.source)
        & point_is_reduced(pointers.pattern)
        & spot_is_reduced(pointers.destination)
}

// Whether every register but those of the maps is reduced.
#[tactic(auto, unfolding(crate::specs::Reduced::registers_reduced))]
pub fn registers_are_reduced(registers: Registers) -> bool
    ensures { result ≡ defined.registers_reduced registers }
{
    (registers.index < 4)
        & terms_are_reduced(registers.terms)
        & colours_are_reduced(registers.colours)
        & figure_is_reduced(registers.figure)
        & pointers_are_reduced(registers.pointers)
}
