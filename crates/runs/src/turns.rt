// A drawing by turns: positions that are alike together, and others one by one.

ghost use Rattle.std.specs.Prelude.{◌≡◌, ◌<◌, ◌≤◌, true, length};
ghost use Rattle.parts.specs.Drawings.{unfinished};
ghost use Rattle.position.specs.Inner.{Safe};
ghost use Rattle.runs.specs.Inner.{Did};

use crate::Ran;
use crate::jobs::Job;
use crate::plans::Plan;
use crate::singly::run_singly;
use crate::stretches::draw_row;
use crate::strokes::draw_stroke;
use moves::Pen;

// The next positions that are alike, of a row or of a stroke, and none where there are none; none is a count like any other, which a stroke
// answers too.
#[tactic(auto, unfolding(crate::specs::Runs::after, crate::specs::Runs::begun))]
fn draw_alike(job: &Job, memory: &mut [u8], pen: Pen, allowance: u32) -> Ran
    requires { Safe job.now.setup (length memory.old) pen }
    ensures { (result.done ≤ allowance) × Did job.now.setup pen memory.old memory.new result }
{
    match &job.plan {
        Plan::Rows(rows) => draw_row(job, rows, memory, pen, allowance),
        Plan::Strokes(strokes) => draw_stroke(job, strokes, memory, pen, allowance),
        Plan::Singly => Ran { pen, done: 0 },
    }
}

// How many positions are done one by one before others are looked for that are alike: a few, and all where none are.
fn alone(job: &Job, allowance: u32) -> u32
    requires { 0 < allowance }
    ensures { (0 < result) × (result ≤ allowance) }
{
    if matches!(job.plan, Plan::Singly) {
        allowance
    } else {
        allowance.min(16)
    }
}

// The next positions, at most as many as are allowed: some that are alike, or some one by one.
pub(crate) fn turn(job: &Job, memory: &mut [u8], pen: Pen, allowance: u32) -> Ran
    requires { Safe job.now.setup (length memory.old) pen
        × (unfinished pen.drawing ≡ true)
        × (0 < allowance) }
    ensures { (0 < result.done)
        × (result.done ≤ allowance)
        × Did job.now.setup pen memory.old memory.new result }
{
    let ran = draw_alike(job, memory, pen, allowance);
    if 0 < ran.done {
        return ran;
    }
    run_singly(job, pen, memory, alone(job, allowance))
}
