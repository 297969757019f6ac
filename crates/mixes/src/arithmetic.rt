// The arithmetic mixes: the enabled bits are one number, which is worked on where they stand.

ghost use Rattle.std.specs.Prelude.{◌≡◌, ◌+◌, ◌*◌, ◌/◌, ◌^◌, ◌≤◌, ◌<◌, min, ltb};
ghost use Rattle.mixes.specs.Mixes as defined;
ghost use Rattle.mixes.specs.Inner.{Cut, number_in, laid_in, Stands};

use crate::Depth;

// The sum: the bits that are not enabled are set, so that each hands a carry on, and the last carry comes out above the pixel.
fn sum(depth: Depth, s: u32, d: u32) -> u32
    requires { Cut depth }
    ensures { Stands depth.bits depth.planes result (number_in depth s + number_in depth d) (ltb depth.ones result)
        × (result < 2 * 2 ^ depth.bits) }
{
    (depth.ones - depth.planes) + (s & depth.planes) + (d & depth.planes)
}

// The sum, held at all enabled bits.
fn held_sum(depth: Depth, s: u32, d: u32) -> u32
    requires { Cut depth }
    ensures { result ≡ laid_in depth (min (number_in depth s + number_in depth d) (number_in depth depth.planes)) }
{
    sum(depth, s, d).min(depth.ones) & depth.planes
}

// Half of the sum, rounded down: what an enabled bit holds goes to the one below it, and the carry to the highest.
fn average(depth: Depth, s: u32, d: u32) -> u32
    requires { Cut depth }
    ensures { result ≡ laid_in depth ((number_in depth s + number_in depth d) / 2) }
{
    let total = sum(depth, s, d);
    let mut enabled = depth.planes;
    let mut rest = total;
    let mut place: u32 = 1;
    let mut below: u32 = 0;
    let mut half: u32 = 0;
    // A turn takes a bit of the mask and of the sum, and the last enabled one is the last turn: a range over all bits would go on.
    while 0 < enabled {
        if enabled % 2 == 1 {
            if rest % 2 == 1 {
                half += below;
            }
            below = place;
        }
        enabled /= 2;
        rest /= 2;
        place *= 2;
    }
    half + below * (total >> depth.bits)
}

// The arithmetic mixes; 0 for the codes past the last.
pub(crate) fn arithmetic(depth: Depth, code: u8, s: u32, d: u32) -> u32
    requires { Cut depth × (16 ≤ code) }
    ensures { result ≡ defined.arithmetic depth.bits code depth.planes s d }
{
    let planes = depth.planes;
    let a = s & planes;
    let b = d & planes;
    // The code is the register's own number: a kind for each would be decoded from the same six, and asked once.
    match code {
        16 => a.max(b),
        17 => a.min(b),
        18 => held_sum(depth, s, d),
        19 => b.saturating_sub(a) & planes,
        20 => a.saturating_sub(b) & planes,
        21 => average(depth, s, d),
        _ => 0,
    }
}
