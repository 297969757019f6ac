ghost use Rattle.std.specs.Prelude.{◌≡◌, false, ◌+◌, ltb};
ghost use Rattle.numbers.specs.Choose.{choose};
ghost use Rattle.parts.specs.Drawings.{with_inside};
ghost use Rattle.moves.specs.Moves as defined;
ghost use Rattle.moves.specs.Inner.{went_by};

use crate::steps::{code_step, goes_up, line_step};
use crate::{Course, Pen, Travel, Turn, Way};
use numbers::circles::term_sum;
use parts::drawing::Drawing;
use parts::shapes::Point;
use rules::codes::{code_at, steps_of, stops};

// The first turn in a read form, and otherwise the second.
fn turn_in(read: bool, first: Turn, second: Turn) -> Turn
    ensures { result ≡ choose read first second }
{
    if read { first } else { second }
}

// The way of one step of a line or code: a read form moves source and pattern by it and the destination to the right,
// and any other the reverse.
fn way_along(course: Course, step: Point<Turn>, e: i32, drawing: Drawing) -> Way
    ensures { result ≡ Way.Along (defined.source_by course step).x (defined.source_by course step).y
        (defined.destination_by course step).x (defined.destination_by course step).y e drawing }
{
    Way::Along {
        from_x: turn_in(course.read, step.x, Turn::Forth),
        from_y: turn_in(course.read, step.y, Turn::Stay),
        to_x: turn_in(course.read, Turn::Forth, step.x),
        to_y: turn_in(course.read, Turn::Stay, step.y),
        e,
        drawing,
    }
}

// E after a position of a line.
fn line_error(travel: Travel, e: i32) -> i32
    ensures { result ≡ defined.line_error travel e }
{
    term_sum(e, if e < 0 { travel.k1 } else { travel.k2 })
}

// Whether the step of a line sets its bit: it goes up a row, in an area boundary.
fn rises(travel: Travel, e: i32) -> bool
    ensures { result ≡ defined.rises travel e }
{
    travel.course.bounds & goes_up(line_step(travel.course, e).y)
}

// The way from a position of a line.
fn line_way(travel: Travel, done: u16, pen: Pen) -> Way
    ensures { went_by travel result pen ≡ defined.line_moved travel done pen }
{
    if done < travel.figure.dimensions.x {
        way_along(
            travel.course,
            line_step(travel.course, pen.e),
            line_error(travel, pen.e),
            Drawing::Line {
                done: done + 1,
                rose: rises(travel, pen.e),
            },
        )
    } else {
        Way::Here {
            drawing: Drawing::Nothing { stopped: false },
        }
    }
}

// The drawing after a code's last position: the next code, a stop at 00, or nothing where no code is left.
pub fn pass_code(steps: u32, count: u8, code: u16) -> Drawing
    ensures { result ≡ defined.code_passed steps count code }
{
    if code as u32 + 1 < count as u32 {
        let following = code + 1;
        if stops(code_at(steps, count, following)) {
            Drawing::Nothing { stopped: true }
        } else {
            Drawing::Codes {
                count,
                code: following,
                done: 0,
            }
        }
    } else {
        Drawing::Nothing { stopped: false }
    }
}

// The way from a position of a code.
fn code_way(travel: Travel, count: u8, code: u16, done: u16, pen: Pen) -> Way
    ensures { went_by travel result pen ≡ defined.codes_moved travel count code done pen }
{
    let current = code_at(travel.figure.steps, count, code);
    if done < steps_of(current) {
        way_along(
            travel.course,
            code_step(current),
            pen.e,
            Drawing::Codes {
                count,
                code,
                done: done + 1,
            },
        )
    } else {
        Way::Here {
            drawing: pass_code(travel.figure.steps, count, code),
        }
    }
}

// The drawing after a row: the next row, or nothing after the last.
pub fn row_after(row: u16, last: u16) -> Drawing
    ensures { result ≡ choose (ltb row last) (Drawing.Block false 0 (row + 1)) (Drawing.Nothing false) }
{
    if row < last {
        Drawing::Block {
            column: 0,
            row: row + 1,
            inside: false,
        }
    } else {
        Drawing::Nothing { stopped: false }
    }
}

// The way from a position of a block.
fn block_way(travel: Travel, column: u16, row: u16, inside: bool, pen: Pen) -> Way
    ensures { went_by travel result pen ≡ defined.block_moved travel column row inside pen }
{
    if column < travel.figure.dimensions.x {
        Way::Column {
            drawing: Drawing::Block {
                column: column + 1,
                row,
                inside,
            },
        }
    } else {
        Way::Row {
            drawing: row_after(row, travel.figure.dimensions.y),
        }
    }
}

// The way from this position, where a fill is inside or not; with nothing in hand there is none.
pub(crate) fn way_of(travel: Travel, inside: bool, pen: Pen) -> Way
    ensures { went_by travel result pen ≡ defined.moved travel (defined.pen_with (with_inside inside pen.drawing) pen) }
{
    match pen.drawing {
        Drawing::Nothing { .. } => Way::Here {
            drawing: pen.drawing,
        },
        Drawing::Line { done, .. } => line_way(travel, done, pen),
        Drawing::Codes { count, code, done } => code_way(travel, count, code, done, pen),
        Drawing::Block { column, row, .. } => block_way(travel, column, row, inside, pen),
    }
}
