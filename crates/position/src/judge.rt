// What becomes of a position, from what it found.

ghost use Rattle.std.specs.Prelude.{◌≡◌, List, ℕ};
ghost use Rattle.mixes.specs.Conditions.{condition_holds};
ghost use Rattle.mixes.specs.Inner.{Cut};
ghost use Rattle.moves.specs.declared.Pen.{Pen};
ghost use Rattle.position.specs.Fates.{fate_of};
ghost use Rattle.position.specs.Inner.{foreseen_of, Aimed};

use crate::{Fate, Target};
use mixes::conditions::holds;
use moves::Pen;
use places::modes::{code_in, is_move, is_nulled};
use places::places::{in_mask, on_map};
use places::{Brush, Setup};

// What keeps a position back, as far as no memory tells.
pub(crate) fn foresee(setup: Setup, pen: Pen) -> Result<(), Fate>
    ensures { result ≡ foreseen_of setup pen }
{
    let code = code_in(setup.travel.figure.steps, pen.drawing);
    if is_move(code, pen.drawing) {
        return Err(Fate::Moved);
    }
    if is_nulled(setup, code, pen.e, pen.drawing) {
        return Err(Fate::Nulled);
    }
    if !on_map(setup.brush, pen) {
        return Err(Fate::OutsideMap);
    }
    if !in_mask(setup.brush, pen) {
        return Err(Fate::OutsideMask);
    }
    Ok(())
}

// Whether the compare condition is true of a destination pixel.
fn is_compared(brush: Brush, pixel: u32) -> bool
    requires { Cut brush.depth }
    ensures { result ≡ condition_holds brush.depth.bits brush.colours.compare.condition brush.depth.planes pixel brush.colours.compare.value }
{
    holds(
        brush.depth,
        brush.colours.compare.condition,
        pixel,
        brush.colours.compare.value,
    )
}

// What becomes of a position that found this target.
pub(crate) fn judge(setup: Setup, target: Target) -> Fate
    requires { Cut setup.brush.depth }
    ensures { (memory : List ℕ) (pen : Pen) → Aimed setup memory pen target → result ≡ fate_of setup memory pen }
{
    if is_compared(setup.brush, target.pixel) {
        return Fate::Compared;
    }
    Fate::Painted
}
