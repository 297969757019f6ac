ghost use Rattle.std.specs.Prelude.{◌≡◌, true};
ghost use Rattle.parts.specs.Drawings.{with_inside};
ghost use Rattle.moves.specs.Moves.{pen_with, moved};
ghost use Rattle.moves.specs.Inner.{pointers_inside};

use crate::pens::{pass_columns, return_row, step_pen};
use crate::ways::way_of;
use crate::{Pen, Travel, Way};
use parts::shapes::Point;

// The pen after this position, where a fill is inside or not; its used pointers lie in their maps, and with nothing in hand it
// stays. The ways of all drawings meet here, so that a loop over positions has each step in it once.
pub fn next(travel: Travel, inside: bool, pen: Pen) -> Pen
    requires { pointers_inside travel pen ≡ true }
    ensures { result ≡ moved travel (pen_with (with_inside inside pen.drawing) pen) }
{
    match way_of(travel, inside, pen) {
        Way::Along {
            from_x,
            from_y,
            to_x,
            to_y,
            e,
            drawing,
        } => {
            let from = Point {
                x: from_x,
                y: from_y,
            };
            let to = Point { x: to_x, y: to_y };
            step_pen(travel, 1, from, to, e, drawing, pen)
        }
        Way::Column { drawing } => pass_columns(travel, 1, drawing, pen),
        Way::Row { drawing } => return_row(travel, travel.figure.dimensions.x, drawing, pen),
        Way::Here { drawing } => Pen { drawing, ..pen },
    }
}
