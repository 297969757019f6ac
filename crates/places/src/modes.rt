// What move codes and the drawing mode hold back, asked by the kind of drawing first.

ghost use Rattle.std.specs.Prelude.{◌≡◌, not, ℕ, eqb, ℤ};
ghost use Rattle.rules.specs.Codes.{code_at};
ghost use Rattle.moves.specs.Steps.{code_step};
ghost use Rattle.parts.specs.declared.drawing.Drawing.TheVariants.{Line, Codes};
ghost use Rattle.places.specs.Places.{of_run, on_boundary, nulled_by};
ghost use Rattle.places.specs.Inner.{code_in, are_codes, moves_by};

use crate::decoded::named_mode;
use crate::{Mode, Setup};
use moves::steps::{code_step, line_step, moves_row};
use moves::{Travel, Turn};
use parts::drawing::Drawing;
use rules::codes::{code_at, only_moves, steps_of};

// Of a horizontal run, the first going up, the last going down, and none going level.
fn of_run(down: Turn, first: bool, last: bool) -> bool
    ensures { result ≡ of_run down first last }
{
    match down {
        Turn::Stay => false,
        Turn::Forth => last,
        Turn::Back => first,
    }
}

// Whether a position of a line is drawn in an area boundary.
fn line_bounds(travel: Travel, e: i32, rose: bool, done: u16) -> bool
    ensures { result ≡ on_boundary travel e (Line rose done) }
{
    of_run(
        travel.course.y,
        rose,
        (done != travel.figure.dimensions.x) & moves_row(line_step(travel.course, e).y),
    )
}

// Whether the drawing mode leaves out a position of a line.
fn line_nulled(setup: Setup, e: i32, rose: bool, done: u16) -> bool
    ensures { result ≡ nulled_by setup e (Line rose done) }
{
    match named_mode(setup.brush.flow.mode) {
        Mode::AllPixels => false,
        Mode::FirstNull => done == 0,
        Mode::LastNull => done == setup.travel.figure.dimensions.x,
        Mode::AreaBoundary => !line_bounds(setup.travel, e, rose, done),
    }
}

// Whether a position of this code is drawn in an area boundary.
fn code_bounds(code: u8, done: u16, last: bool) -> bool
    ensures { result ≡ of_run (code_step code).y (not (eqb done 0)) (not last) }
{
    of_run(code_step(code).y, done != 0, !last)
}

// Whether the drawing mode leaves out a position of this code.
fn code_nulled(setup: Setup, code: u8, done: u16) -> bool
    ensures { (e : ℤ) (count i : ℕ) → code ≡ code_at setup.travel.figure.steps count i → result ≡ nulled_by setup e (Codes count i done) }
{
    let last = done == steps_of(code);
    match named_mode(setup.brush.flow.mode) {
        Mode::AllPixels => false,
        Mode::FirstNull => done == 0,
        Mode::LastNull => last,
        Mode::AreaBoundary => !code_bounds(code, done, last),
    }
}

// The code that is drawn, 0 where none is.
pub fn code_in(steps: u32, drawing: Drawing) -> u8
    ensures { result ≡ code_in steps drawing }
{
    if let Drawing::Codes { count, code, .. } = drawing {
        code_at(steps, count, code)
    } else {
        0
    }
}

// Whether codes are drawn.
fn are_codes(drawing: Drawing) -> bool
    ensures { result ≡ are_codes drawing }
{
    matches!(drawing, Drawing::Codes { .. })
}

// Whether a position of this code only moves, as one of a code without bit 4 does.
pub fn is_move(code: u8, drawing: Drawing) -> bool
    ensures { result ≡ moves_by code drawing }
{
    are_codes(drawing) & only_moves(code)
}

// Whether the drawing mode leaves out a position, of this code where one is drawn.
pub fn is_nulled(setup: Setup, code: u8, e: i32, drawing: Drawing) -> bool
    requires { code ≡ code_in setup.travel.figure.steps drawing }
    ensures { result ≡ nulled_by setup e drawing }
{
    match drawing {
        Drawing::Line { rose, done } => line_nulled(setup, e, rose, done),
        Drawing::Codes { done, .. } => code_nulled(setup, code, done),
        Drawing::Nothing { .. } | Drawing::Block { .. } => false,
    }
}
