ghost use Rattle.std.specs.Prelude.{◌≡◌, ◌%◌, ltb, eqb};
ghost use Rattle.numbers.specs.Choose.{choose};
ghost use Rattle.moves.specs.Steps.{line_step, code_step, moves_row, goes_up};

use crate::{Course, Turn};
use parts::shapes::Point;
use rules::codes::direction_of;

// The step of a line at this error.
pub fn line_step(course: Course, e: i32) -> Point<Turn>
    ensures { result ≡ line_step course e }
{
    if e < 0 {
        course.straight
    } else {
        Point {
            x: course.x,
            y: course.y,
        }
    }
}

// The turn in Y of a direction; that in X is the one of two directions before.
fn turn_of(direction: u8) -> Turn
    ensures { result ≡ choose (eqb (direction % 4) 0) Turn.Stay (choose (ltb direction 4) Turn.Back Turn.Forth) }
{
    if direction % 4 == 0 {
        Turn::Stay
    } else if direction < 4 {
        Turn::Back
    } else {
        Turn::Forth
    }
}

// The step of a code.
pub fn code_step(code: u8) -> Point<Turn>
    ensures { result ≡ code_step code }
{
    let direction = direction_of(code);
    Point {
        x: turn_of((direction + 6) % 8),
        y: turn_of(direction),
    }
}

// Whether a step's part in Y moves it.
pub fn moves_row(turn: Turn) -> bool
    ensures { result ≡ moves_row turn }
{
    turn != Turn::Stay
}

// Whether it moves it up.
pub(crate) fn goes_up(turn: Turn) -> bool
    ensures { result ≡ goes_up turn }
{
    turn == Turn::Back
}
