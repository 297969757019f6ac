ghost use Rattle.std.specs.Prelude.{◌≡◌, true, not, ◌||◌};
ghost use Rattle.rules.specs.Maps.{is_inside};
ghost use Rattle.moves.specs.Inner as inner;
ghost use Rattle.moves.specs.Inner.{pointers_inside, columns_passed, row_returned};

use crate::{Ground, Pen, Travel, Turn};
use parts::drawing::Drawing;
use parts::shapes::{Point, Pointers};

impl Ground {
    // A pointer by this step, whose part in X is made `count` times, where the map is used.
    #[inline(always)]
    fn turned(self, count: u16, step: Point<Turn>, p: Point<u16>) -> Point<u16>
        requires { (not self.used || is_inside self.map p) ≡ true }
        ensures { result ≡ inner.turned self count step p }
    {
        if self.used {
            Point {
                x: step.x.by(count, self.map.width, p.x),
                y: step.y.by(1, self.map.height, p.y),
            }
        } else {
            p
        }
    }
}

// That the used pointers lie in their maps is a fact of travel and pen together, and stands in the contracts: a struct of both would hold
// what no move changes beside what each does, and every loop would take it apart and build it again.

// The pen after a step whose part in X is made `count` times: used source and pattern pointers by `from` and the destination by `to`.
#[inline(always)]
pub(crate) fn step_pen(
    travel: Travel,
    count: u16,
    from: Point<Turn>,
    to: Point<Turn>,
    e: i32,
    drawing: Drawing,
    pen: Pen,
) -> Pen
    requires { pointers_inside travel pen ≡ true }
    ensures { result ≡ inner.pen_turned travel count from to e drawing pen }
{
    let pointers = Pointers {
        source: travel.source.turned(count, from, pen.pointers.source),
        pattern: travel.pattern.turned(count, from, pen.pointers.pattern),
        destination: Point {
            x: to.x.circled(count, pen.pointers.destination.x),
            y: to.y.circled(1, pen.pointers.destination.y),
        },
    };
    Pen {
        pointers,
        e,
        drawing,
    }
}

// The pen so many columns further in its row.
#[inline(always)]
pub fn pass_columns(travel: Travel, count: u16, drawing: Drawing, pen: Pen) -> Pen
    requires { pointers_inside travel pen ≡ true }
    ensures { result ≡ columns_passed travel count drawing pen }
{
    let across = Point {
        x: travel.course.x,
        y: Turn::Stay,
    };
    step_pen(travel, count, across, across, pen.e, drawing, pen)
}

// The pen at the start of the next row, from so many columns into this one; the destination goes the other way in an inverting block.
#[inline(always)]
#[tactic(auto, using(crate::proofs::PenLaws::row_turned))]
pub fn return_row(travel: Travel, columns: u16, drawing: Drawing, pen: Pen) -> Pen
    requires { pointers_inside travel pen ≡ true }
    ensures { result ≡ row_returned travel columns drawing pen }
{
    let course = travel.course;
    let from = Point {
        x: course.x.opposite(),
        y: course.y,
    };
    let down = if course.inverts {
        course.y.opposite()
    } else {
        course.y
    };
    let to = Point { y: down, ..from };
    step_pen(travel, columns, from, to, pen.e, drawing, pen)
}
