// A drawing that is planned, once for its run.

ghost use Rattle.mixes.specs.Inner.{Cut};
ghost use Rattle.position.specs.Inner.{InkBlends};
ghost use Rattle.runs.specs.Inner.{Planned, Blended};
ghost use Rattle.runs.specs.Once.{Planned-once, Blended-once};

use crate::plans::Plan;
use places::Setup;
use position::Blends;

// What a drawing does not change: its set-up, the blends of its inks, and how it is drawn.
#[derive(Clone, Copy)]
pub struct Job {
    pub setup: Setup,
    pub blends: Blends,
    pub plan: Plan,
    ghost inked: { Cut setup.brush.depth → InkBlends setup.brush blends },
    ghost planned: { Planned setup plan } by { Planned-once setup plan },
    ghost blended: { Blended setup blends plan } by { Blended-once setup blends plan },
}
