// A lane drawn by the shortest way that fits it.

ghost use Rattle.std.specs.Prelude.{◌≡◌, ℕ, ◌*◌, ◌%◌, true, false, not, ◌&&◌, length, ◌≢◌};
ghost use Rattle.pixels.specs.Maps.{bits_of};
ghost use Rattle.pixels.specs.Inner.{shift_at};
ghost use Rattle.rows.specs.Inner.{swept_from};
ghost use Rattle.runs.specs.Inner as inner;
ghost use Rattle.runs.specs.Inner.{Makes, Laid};

use crate::plans::{RowPlan, Taken};
use pixels::shift_at;
use rows::Lane;
use rows::patterns::expand;
use rows::ranges::is_apart;
use rows::slides::slide;
use rows::sweeps::sweep;

// Whether a row is drawn through a pattern.
fn is_pattern(taken: Taken) -> bool
    ensures { result ≡ inner.is_pattern taken }
{
    matches!(taken, Taken::Pattern)
}

// Whether the lane's pixels lie as far up in their bytes as those that they come from.
fn is_in_phase(lane: Lane) -> bool
    ensures { (result ≡ true → lane.from * bits_of lane.format % 8 ≡ lane.to * bits_of lane.format % 8)
        × (result ≡ false → shift_at lane.format lane.to ≢ shift_at lane.format lane.from) }
{
    shift_at(lane.format, lane.from) == shift_at(lane.format, lane.to)
}

// The pixels of a lane that no byte of those lies among which it takes: through a pattern, or shifted in their bytes.
fn draw_apart(memory: &mut [u8], plan: &RowPlan, lane: Lane, count: u32)
    requires { Laid plan.now.takes plan.now.map.format lane count (length memory.old)
        × inner.Separate plan.now.map.format lane count
        × (inner.is_pattern plan.now.takes ≡ false → shift_at lane.format lane.to ≢ shift_at lane.format lane.from) }
    ensures { (op : ℕ → ℕ → ℕ) → Makes plan.now.takes lane.format op plan.now.front plan.now.rear
        → memory.new ≡ swept_from plan.now.map.format op lane count memory.old }
{
    if is_pattern(plan.takes) {
        expand(memory, lane, plan.map.format, plan.front, plan.rear, count);
    } else {
        slide(memory, lane, plan.front, count);
    }
}

// The pixels of a lane, and whether they were drawn: in phase always, and otherwise where they lie apart from those that they take.
pub(crate) fn draw_lane(memory: &mut [u8], plan: &RowPlan, lane: Lane, count: u32) -> bool
    requires { Laid plan.now.takes plan.now.map.format lane count (length memory.old) }
    ensures { (result ≡ false → memory.new ≡ memory.old)
        × (result ≡ true → (op : ℕ → ℕ → ℕ) → Makes plan.now.takes lane.format op plan.now.front plan.now.rear
        → memory.new ≡ swept_from plan.now.map.format op lane count memory.old) }
{
    if !is_pattern(plan.takes) & is_in_phase(lane) {
        sweep(memory, lane, plan.front, count);
        return true;
    }
    if !is_apart(lane, plan.map.format, count) {
        return false;
    }
    draw_apart(memory, plan, lane, count);
    true
}
