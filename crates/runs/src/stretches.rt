// Positions of one row that are alike, done together.

ghost use Rattle.std.specs.Prelude.{◌≡◌, ℕ, ◌+◌, ◌-◌, ◌*◌, ◌%◌, ◌^◌, ◌<◌, ◌≤◌, Bool, true, false, length};
ghost use Rattle.parts.specs.declared.drawing.Drawing.TheVariants.{Block};
ghost use Rattle.moves.specs.Moves.{moved};
ghost use Rattle.moves.specs.Inner.{OnCircle, pointers_inside, columns_passed};
ghost use Rattle.position.specs.Inner.{Safe};
ghost use Rattle.runs.specs.Inner as inner;
ghost use Rattle.runs.specs.Inner.{RowPlanned, RowBlended, Spans, Sized, column_at, lane_at, Stretch, Did};

use crate::Ran;
use crate::jobs::Job;
use crate::lanes::draw_lane;
use crate::plans::{RowPlan, Taken};
use moves::pens::{pass_columns, return_row};
use moves::ways::row_after;
use moves::{Pen, Travel};
use parts::drawing::Drawing;
use parts::shapes::Point;
use pixels::{Map, index};
use places::Setup;
use places::places::{destination_of, in_mask, on_map};
use rows::Lane;

// How many places from here on, back or forth, lie from `low` to `high`.
pub(crate) fn span(back: bool, here: u16, low: u16, high: u16) -> u32
    ensures { 0 < result → Spans back here result low high }
{
    if (here < low) | (high < here) {
        return 0;
    }
    if back {
        here as u32 - low as u32 + 1
    } else {
        high as u32 - here as u32 + 1
    }
}

// How many positions are left in a row.
fn rest(column: u16, last: u16) -> u32
    ensures { (result ≡ last - column + 1) × (column + result ≤ 2 ^ 16) }
{
    last.saturating_sub(column) as u32 + 1
}

// How many pixels of the map come before this one.
pub(crate) fn number(map: Map, x: u16, y: u16) -> u32
    ensures { (result ≡ inner.pixel_number map x y) × Sized map }
{
    index(map, x, y)
}

// The first pixel that a row takes beside its own.
fn taken_point(setup: Setup, taken: Taken, pen: Pen) -> Point<u16>
    ensures { (result.x ≡ inner.taken_x setup taken pen) × (result.y ≡ inner.taken_y setup taken pen) }
{
    match taken {
        Taken::Own => destination_of(setup.brush, pen),
        Taken::Source => pen.pointers.source,
        Taken::Pattern => pen.pointers.pattern,
    }
}

// How many columns from the pen on may be painted, before the pointer wraps that is taken.
fn reach(setup: Setup, plan: &RowPlan, pen: Pen) -> u32
    ensures { 0 < result → Spans plan.now.back (column_at setup pen) result plan.now.left plan.now.right
        × Spans plan.now.back (inner.taken_x setup plan.now.takes pen) result 0 plan.now.map.width }
{
    let at = destination_of(setup.brush, pen);
    let point = taken_point(setup, plan.takes, pen);
    let columns = span(plan.back, at.x, plan.left, plan.right);
    columns.min(span(plan.back, point.x, 0, plan.map.width))
}

// The lane of the row from the pen's pixel on.
fn lane_of(setup: Setup, plan: &RowPlan, pen: Pen) -> Lane
    ensures { (result ≡ lane_at setup plan.now pen) × Sized setup.brush.destination × Sized plan.now.map }
{
    let at = destination_of(setup.brush, pen);
    let point = taken_point(setup, plan.takes, pen);
    Lane {
        format: setup.brush.destination.format,
        back: plan.back,
        source: plan.map.base,
        destination: setup.brush.destination.base,
        from: number(plan.map, point.x, point.y),
        to: number(setup.brush.destination, at.x, at.y),
    }
}

// How many positions from this column of a block on are alike, and no more than are allowed; none where the first is not painted.
fn block_length(
    setup: Setup,
    plan: &RowPlan,
    pen: Pen,
    inside: bool,
    column: u16,
    allowance: u32,
) -> u32
    ensures { (row : ℕ) → pen.drawing ≡ Block inside column row → 0 < result → Stretch setup plan.now pen result × (result ≤ allowance) }
{
    if inside | !on_map(setup.brush, pen) {
        return 0;
    }
    if !in_mask(setup.brush, pen) {
        return 0;
    }
    let left = allowance.min(rest(column, setup.travel.figure.dimensions.x));
    left.min(reach(setup, plan, pen))
}

// How many positions from the pen on are alike, and no more than are allowed; none but of a block.
fn length_of(setup: Setup, plan: &RowPlan, pen: Pen, allowance: u32) -> u32
    ensures { 0 < result → Stretch setup plan.now pen result × (result ≤ allowance) }
{
    let Drawing::Block { inside, column, .. } = pen.drawing else {
        return 0;
    };
    block_length(setup, plan, pen, inside, column, allowance)
}

// The pen after so many positions of a row, from this column and row of a block on, of which the last may end it.
fn pass(travel: Travel, count: u32, column: u16, row: u16, pen: Pen) -> Pen
    requires { (0 < count)
        × (count ≤ travel.figure.dimensions.x - column + 1)
        × (column + count ≤ 2 ^ 16)
        × (pointers_inside travel pen ≡ true)
        × OnCircle pen.pointers.destination.x }
    ensures { result ≡ moved travel (columns_passed travel (count - 1) (Block false (column + (count - 1)) row) pen) }
{
    let further = (count - 1) as u16;
    if travel.figure.dimensions.x <= column + further {
        return_row(
            travel,
            travel.figure.dimensions.x - further,
            row_after(row, travel.figure.dimensions.y),
            pen,
        )
    } else {
        pass_columns(
            travel,
            further + 1,
            Drawing::Block {
                inside: false,
                column: column + further + 1,
                row,
            },
            pen,
        )
    }
}

// The pen after so many positions of a stretch.
fn pass_stretch(travel: Travel, count: u32, pen: Pen) -> Pen
    requires { (0 < count)
        × ((inside : Bool) (column row : ℕ) → pen.drawing ≡ Block inside column row
        → (count ≤ travel.figure.dimensions.x - column + 1) × (column + count ≤ 2 ^ 16))
        × (pointers_inside travel pen ≡ true)
        × OnCircle pen.pointers.destination.x }
    ensures { (column row : ℕ) → pen.drawing ≡ Block false column row
        → result ≡ moved travel (columns_passed travel (count - 1) (Block false (column + (count - 1)) row) pen) }
{
    let Drawing::Block { column, row, .. } = pen.drawing else {
        return pen;
    };
    pass(travel, count, column, row, pen)
}

// The next positions of a row that are alike, and at most as many as are allowed; none where the first is not painted.
pub(crate) fn draw_row(
    job: &Job,
    plan: &RowPlan,
    memory: &mut [u8],
    pen: Pen,
    allowance: u32,
) -> Ran
    requires { RowPlanned job.now.setup plan.now
        × RowBlended job.now.setup job.now.blends plan.now
        × Safe job.now.setup (length memory.old) pen }
    ensures { (result.done ≤ allowance) × Did job.now.setup pen memory.old memory.new result }
{
    let count = length_of(job.setup, plan, pen, allowance);
    if count == 0 {
        return Ran { pen, done: 0 };
    }
    let lane = lane_of(job.setup, plan, pen);
    if !draw_lane(memory, plan, lane, count) {
        return Ran { pen, done: 0 };
    }
    Ran {
        pen: pass_stretch(job.setup.travel, count, pen),
        done: count,
    }
}
