ghost use Rattle.std.specs.Prelude.{◌≡◌};
ghost use Rattle.mixes.specs.Conditions.{condition_holds};
ghost use Rattle.mixes.specs.Inner.{Cut};

use crate::Depth;

// The condition that is true of nothing.
const NEVER: u8 = 4;

// Whether a condition is true of the destination: the enabled bits stay in their order, so the masked pixels compare as the
// gathered bits do.
fn compares(depth: Depth, condition: u8, destination: u32, value: u32) -> bool
    requires { Cut depth }
    ensures { result ≡ condition_holds depth.bits condition depth.planes destination value }
{
    let d = destination & depth.planes;
    let v = value & depth.planes;
    // The condition is the register's own number: a kind for each would be decoded from the same eight, and asked once.
    match condition {
        0 => true,
        1 => v < d,
        2 => d == v,
        3 => d < v,
        4 => false,
        5 => v <= d,
        6 => d != v,
        7 => d <= v,
        _ => false,
    }
}

// Whether the compare condition is true of the destination, over the bits that the plane mask enables; one past 7 is true of
// nothing. Most drawings have the condition that never holds, so that is asked first.
pub fn holds(depth: Depth, condition: u8, destination: u32, value: u32) -> bool
    requires { Cut depth }
    ensures { result ≡ condition_holds depth.bits condition depth.planes destination value }
{
    if condition == NEVER {
        return false;
    }
    compares(depth, condition, destination, value)
}
