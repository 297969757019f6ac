// A line or a code whose positions are alike until it leaves the map or the mask boundary.

ghost use Rattle.std.specs.Prelude.{◌≡◌, ℕ, ◌+◌, ◌-◌, ◌*◌, ◌/◌, ◌%◌, ◌^◌, ◌<◌, ◌≤◌, true, false, ◌&&◌, length, pos, ◌==◌, IfSome};
ghost use Rattle.numbers.specs.Choose.{choose};
ghost use Rattle.numbers.specs.Circles.{circle};
ghost use Rattle.pixels.specs.Inner.{place_at};
ghost use Rattle.rows.specs.Inner.{wholly, Alike, pixel_no, with_pixel_no};
ghost use Rattle.moves.specs.Moves.{code_passed};
ghost use Rattle.position.specs.Inner.{Safe};
ghost use Rattle.runs.specs.Inner as inner;
ghost use Rattle.runs.specs.Inner.{is_stroke, goes_across, Sized, raised, error_in, line_stroke, code_stroke, done_in, StrokePlanned, BlendOf, Inside, Did};

use crate::Ran;
use crate::jobs::Job;
use crate::plans::{StrokePlan, goes_across, goes_back};
use crate::stretches::{number, span};
use moves::steps::code_step;
use moves::ways::pass_code;
use moves::{Pen, Travel, Turn};
use numbers::circles::{destination, word};
use parts::drawing::Drawing;
use parts::reduced::term_is_reduced;
use parts::shapes::{Point, Pointers};
use pixels::Map;
use places::places::{destination_of, on_map};
use rows::traces::{dot, trace};
use rows::{Trail, Whole};
use rules::codes::{code_at, only_moves, steps_of};
use std::num::wrapping_add_u32;

// What is left of a line or code that is drawn: its straight and its turned step, the error term and what it gains by each, as a trail
// has them, and the steps before its last position.
#[derive(Clone, Copy)]
pub struct Stroke {
    pub straight: Point<Turn>,
    pub turned: Point<Turn>,
    pub e: u32,
    pub k1: u32,
    pub k2: u32,
    pub steps: u32,
}

// A term's remainder.
fn remainder(k: i32) -> u32
    ensures { result ≡ inner.remainder k }
{
    word(k) % 16384
}

// An error term as a trail has it, 8,192 higher.
fn raise(e: i32) -> u32
    ensures { result ≡ raised e }
{
    (remainder(e) + 8192) % 16384
}

// An error term as it stands.
fn lower(e: u32) -> i32
    requires { e < 16384 }
    ensures { result ≡ error_in e }
{
    e as i32 - 8192
}

// How many steps are left.
fn steps_left(done: u16, last: u16) -> u32
    ensures { (result ≡ last - done) × (done + result < 2 ^ 16) }
{
    last.saturating_sub(done) as u32
}

// The stroke of a line, and none where its error term is not reduced.
fn line_stroke(travel: Travel, e: i32, done: u16) -> Option<Stroke>
    ensures { (result ≡ line_stroke travel e done) × IfSome result (λ k. done + k.steps < 2 ^ 16) }
{
    if !term_is_reduced(e) {
        return None;
    }
    let course = travel.course;
    Some(Stroke {
        straight: course.straight,
        turned: Point {
            x: course.x,
            y: course.y,
        },
        e: raise(e),
        k1: remainder(travel.k1),
        k2: remainder(travel.k2),
        steps: steps_left(done, travel.figure.dimensions.x),
    })
}

// The stroke of a code, which never turns, and none where it only moves.
fn code_stroke(code: u8, done: u16) -> Option<Stroke>
    ensures { (result ≡ code_stroke code done) × IfSome result (λ k. done + k.steps < 2 ^ 16) }
{
    if only_moves(code) {
        return None;
    }
    let step = code_step(code);
    Some(Stroke {
        straight: step,
        turned: step,
        e: 0,
        k1: 0,
        k2: 0,
        steps: steps_left(done, steps_of(code)),
    })
}

// The stroke of a drawing, of which only a line or a code has one.
fn stroke_of(travel: Travel, e: i32, drawing: Drawing) -> Option<Stroke>
    ensures { (result ≡ inner.stroke_of travel e drawing) × IfSome result (λ k. done_in drawing + k.steps < 2 ^ 16) }
{
    match drawing {
        Drawing::Line { done, .. } => line_stroke(travel, e, done),
        Drawing::Codes { count, code, done } => {
            code_stroke(code_at(travel.figure.steps, count, code), done)
        }
        Drawing::Nothing { .. } | Drawing::Block { .. } => None,
    }
}

// How far a turn moves the number of a pixel, past `last` + 1 of them, as a number that wraps.
fn stride(turn: Turn, last: u16) -> u32
    ensures { result ≡ inner.stride_by turn last }
{
    match turn {
        Turn::Stay => 0,
        Turn::Forth => last as u32 + 1,
        Turn::Back => 4294967295 - last as u32,
    }
}

// How far a step does.
fn stride_of(width: u16, step: Point<Turn>) -> u32
    ensures { result ≡ inner.stride_of width step }
{
    wrapping_add_u32(stride(step.x, 0), stride(step.y, width))
}

// The trail of a stroke from a pixel on.
fn trail_of(map: Map, stroke: Stroke, at: Point<u16>) -> Trail
    ensures { (result ≡ inner.trail_from map stroke at.x at.y) × Sized map }
{
    Trail {
        format: map.format,
        base: map.base,
        at: number(map, at.x, at.y),
        e: stroke.e,
        k1: stroke.k1,
        k2: stroke.k2,
        straight: stride_of(map.width, stroke.straight),
        turned: stride_of(map.width, stroke.turned),
    }
}

// The steps that stay within a span, of those that move, and no more than there are.
fn limit(moves: bool, most: u32, span: u32) -> u32
    requires { 0 < span }
    ensures { (result ≤ most) × (moves ≡ true → result < span) }
{
    if moves { most.min(span - 1) } else { most }
}

// How many steps are gone at most, where the straight ones stay within their spans.
fn count_of(stroke: Stroke, across: u32, down: u32, allowance: u32) -> u32
    requires { (0 < across) × (0 < down) }
    ensures { (result ≤ allowance) × (result ≤ stroke.steps)
        × (goes_across stroke.straight.x ≡ true → result < across)
        × (goes_across stroke.straight.y ≡ true → result < down) }
{
    let straight = stroke.straight;
    let most = limit(goes_across(straight.x), allowance.min(stroke.steps), across);
    limit(goes_across(straight.y), most, down)
}

// How many of them may turn, where only the turned ones move.
fn turns_of(stroke: Stroke, across: u32, down: u32) -> u32
    requires { (0 < across) × (0 < down) }
    ensures { (goes_across stroke.straight.x ≡ false → result < across)
        × (goes_across stroke.straight.y ≡ false → result < down) }
{
    let straight = stroke.straight;
    let most = limit(!goes_across(straight.x), 4294967295, across);
    limit(!goes_across(straight.y), most, down)
}

// A line so many steps further, or after its last position.
fn line_on(rose: bool, before: u16, done: u32, ends: bool) -> Drawing
    requires { before + done < 2 ^ 16 }
    ensures { result ≡ choose ends (Drawing.Nothing false) (Drawing.Line (rose && done == 0) (before + done)) }
{
    if ends {
        Drawing::Nothing { stopped: false }
    } else {
        Drawing::Line {
            rose: rose & (done == 0),
            done: before + done as u16,
        }
    }
}

// A code so many steps further, or what follows it.
fn code_on(steps: u32, count: u8, code: u16, before: u16, done: u32, ends: bool) -> Drawing
    requires { before + done < 2 ^ 16 }
    ensures { result ≡ choose ends (code_passed steps count code) (Drawing.Codes count code (before + done)) }
{
    if ends {
        pass_code(steps, count, code)
    } else {
        Drawing::Codes {
            count,
            code,
            done: before + done as u16,
        }
    }
}

// The drawing in hand so many steps further, or after its last position.
fn drawing_on(travel: Travel, drawing: Drawing, done: u32, ends: bool) -> Drawing
    requires { done_in drawing + done < 2 ^ 16 }
    ensures { is_stroke drawing ≡ true → result ≡ choose ends (inner.drawing_ended travel drawing) (inner.drawing_at done drawing) }
{
    match drawing {
        Drawing::Line { rose, done: before } => line_on(rose, before, done, ends),
        Drawing::Codes {
            count,
            code,
            done: before,
        } => code_on(travel.figure.steps, count, code, before, done, ends),
        Drawing::Nothing { .. } | Drawing::Block { .. } => Drawing::Nothing { stopped: false },
    }
}

// The error term with which the drawing goes on: a line's is the trail's.
fn error_on(pen: Pen, e: u32) -> i32
    requires { e < 16384 }
    ensures { result ≡ inner.error_of pen.drawing e pen.e }
{
    if matches!(pen.drawing, Drawing::Line { .. }) {
        lower(e)
    } else {
        pen.e
    }
}

// The pen at pixel number `at`, which tells its column and row.
fn pen_at(width: u16, at: u32, e: i32, drawing: Drawing, pen: Pen) -> Pen
    ensures { result ≡ inner.pen_at (circle 2048 8192 (pos (at % (width + 1)))) (circle 2048 8192 (pos (at / (width + 1)))) e drawing pen }
{
    let row = width as u32 + 1;
    Pen {
        pointers: Pointers {
            destination: Point {
                x: destination(at % row),
                y: destination(at / row),
            },
            ..pen.pointers
        },
        e,
        drawing,
    }
}

// How many positions are done, the last one too.
fn done_by(ends: bool, done: u32) -> u32
    requires { ends ≡ true → done + 1 < 2 ^ 32 }
    ensures { result ≡ choose ends (done + 1) done }
{
    if ends { done + 1 } else { done }
}

// The last pixel of a stroke, where it ends.
fn end(memory: &mut [u8], ends: bool, trail: Trail, whole: Whole, n: u32)
    requires { ends ≡ true → place_at trail.format trail.base n < length memory.old }
    ensures { (op : ℕ → ℕ → ℕ) → Alike trail.format op (wholly whole)
        → memory.new ≡ choose ends (with_pixel_no trail.format trail.base n (op 0 (pixel_no trail.format trail.base n memory.old)) memory.old)
        memory.old }
{
    if ends {
        dot(memory, trail.format, trail.base, whole, n);
    }
}

// The next positions of a stroke from a pixel that is inside on, within these spans.
fn go(
    job: &Job,
    whole: Whole,
    memory: &mut [u8],
    pen: Pen,
    stroke: Stroke,
    at: Point<u16>,
    across: u32,
    down: u32,
    allowance: u32,
) -> Ran
    requires { Inside job.now.setup pen stroke at.x at.y across down
        × BlendOf job.now.setup job.now.blends.foreground whole
        × Safe job.now.setup (length memory.old) pen }
    ensures { (result.done ≤ allowance) × Did job.now.setup pen memory.old memory.new result }
{
    let trail = trail_of(job.setup.brush.destination, stroke, at);
    let count = count_of(stroke, across, down, allowance);
    let turns = turns_of(stroke, across, down);
    let gone = trace(memory, trail, whole, count, turns);
    let ends = (gone.done == stroke.steps) & (gone.done < allowance);
    end(memory, ends, trail, whole, gone.at);
    Ran {
        pen: pen_at(
            job.setup.brush.destination.width,
            gone.at,
            error_on(pen, gone.e),
            drawing_on(job.setup.travel, pen.drawing, gone.done, ends),
            pen,
        ),
        done: done_by(ends, gone.done),
    }
}

// The next positions of a line or code, as far as they are inside, and at most as many as are allowed; none where the first is not.
pub(crate) fn draw_stroke(
    job: &Job,
    plan: &StrokePlan,
    memory: &mut [u8],
    pen: Pen,
    allowance: u32,
) -> Ran
    requires { StrokePlanned job.now.setup plan.now
        × BlendOf job.now.setup job.now.blends.foreground plan.now.whole
        × Safe job.now.setup (length memory.old) pen }
    ensures { (result.done ≤ allowance) × Did job.now.setup pen memory.old memory.new result }
{
    let Some(stroke) = stroke_of(job.setup.travel, pen.e, pen.drawing) else {
        return Ran { pen, done: 0 };
    };
    if !on_map(job.setup.brush, pen) {
        return Ran { pen, done: 0 };
    }
    let at = destination_of(job.setup.brush, pen);
    let across = span(goes_back(stroke.turned.x), at.x, plan.left, plan.right);
    let down = span(goes_back(stroke.turned.y), at.y, plan.top, plan.bottom);
    if (across == 0) | (down == 0) {
        return Ran { pen, done: 0 };
    }
    go(
        job, plan.whole, memory, pen, stroke, at, across, down, allowance,
    )
}
