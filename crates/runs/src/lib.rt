// A run of positions over lent memory.
#![tactic(auto)]

ghost use Rattle.std.specs.Prelude.{◌≡◌, true, length};
ghost use Rattle.parts.specs.Drawings.{unfinished};
ghost use Rattle.position.specs.Inner.{Safe};
ghost use Rattle.runs.specs.Runs.{begun, after};

use jobs::Job;
use moves::Pen;
use parts::drawing::is_unfinished;
use places::Setup;
use plans::plan_of;
use position::inks::blends_of;
use turns::turn;

mod jobs;
mod lanes;
mod plans;
mod singly;
mod stretches;
mod strokes;
mod turns;

// What a run leaves beside memory: the pen, and the positions done.
#[derive(Clone, Copy)]
pub struct Ran {
    pub pen: Pen,
    pub done: u32,
}

// Does the next positions of the drawing in hand, at most as many as the allowance, by turns. A drawing in hand is safe: so is every
// position of it, and none is asked whether it lies in the memory.
pub fn run(setup: Setup, from: Pen, memory: &mut [u8], allowance: u32) -> Ran
    requires { unfinished from.drawing ≡ true → Safe setup (length memory.old) from }
    ensures { (result.pen ≡ (after setup allowance (begun from memory.old)).pen)
        × (result.done ≡ (after setup allowance (begun from memory.old)).done)
        × (memory.new ≡ (after setup allowance (begun from memory.old)).memory) }
{
    let blends = blends_of(setup.brush);
    let job = Job {
        setup,
        blends,
        plan: plan_of(setup, blends, from.drawing),
    };
    let mut pen = from;
    let mut done: u32 = 0;
    // A turn does several positions, so it is no `for` over them.
    while (done < allowance) & is_unfinished(pen.drawing) {
        let turned = turn(&job, memory, pen, allowance - done);
        pen = turned.pen;
        done += turned.done;
    }
    Ran { pen, done }
}
