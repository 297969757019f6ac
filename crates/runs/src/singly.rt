// Positions one by one.

ghost use Rattle.std.specs.Prelude.{◌≡◌, true, length};
ghost use Rattle.parts.specs.Drawings.{unfinished};
ghost use Rattle.position.specs.Inner.{Safe};
ghost use Rattle.runs.specs.Runs.{begun, after};

use crate::Ran;
use crate::jobs::Job;
use moves::Pen;
use moves::passage::next;
use parts::drawing::is_unfinished;
use position::drawn::draw;

// A run, position by position.
pub(crate) fn run_singly(job: &Job, from: Pen, memory: &mut [u8], allowance: u32) -> Ran
    requires { unfinished from.drawing ≡ true → Safe job.now.setup (length memory.old) from }
    ensures { (result.pen ≡ (after job.now.setup allowance (begun from memory.old)).pen)
        × (result.done ≡ (after job.now.setup allowance (begun from memory.old)).done)
        × (memory.new ≡ (after job.now.setup allowance (begun from memory.old)).memory) }
{
    // They are the loop's own, so that what it writes to memory cannot change them.
    let setup = job.setup;
    let blends = job.blends;
    let mut pen = from;
    for done in 0..allowance {
        if !is_unfinished(pen.drawing) {
            return Ran { pen, done };
        }
        let inside = draw(setup, blends, memory, pen);
        pen = next(setup.travel, inside, pen);
    }
    Ran {
        pen,
        done: allowance,
    }
}
