ghost use Rattle.std.specs.Prelude.{◌≡◌};
ghost use Rattle.coprocessor.specs.Fresh.{size_holds, fresh_of, fresh_answer};

use crate::{Coprocessor, Written};
use parts::drawing::Drawing;
use parts::fresh::zero_registers;
use parts::refusals::Refusal;
use pixels::Map;

// The largest memory, in bytes.
const LARGEST: u32 = 1048576;

// Whether a memory may have this size.
#[tactic(auto, unfolding(crate::specs::Fresh::size_holds))]
pub(crate) fn size_holds(size: u32) -> bool
    ensures { result ≡ size_holds size }
{
    (1 <= size) & (size <= LARGEST)
}

// All registers zero, idle and not stopped, over a memory of this size.
#[tactic(auto, unfolding(crate::specs::Fresh::fresh_of))]
pub(crate) fn zero(size: u32) -> Coprocessor
    ensures { result ≡ fresh_of size }
{
    let map = Map {
        base: 0,
        width: 0,
        height: 0,
        format: 0,
    };
    Coprocessor {
        size,
        maps: [map, map, map, map],
        registers: zero_registers(),
        drawing: Drawing::Nothing { stopped: false },
    }
}

impl Coprocessor {
    // A fresh state over a memory of this size; a refused one has a memory of one byte.
    #[tactic(auto, unfolding(crate::specs::Fresh::fresh_answer))]
    pub fn fresh(size: u32) -> Written
        ensures { result ≡ fresh_answer size }
    {
        if size_holds(size) {
            Written {
                outcome: Ok(()),
                coprocessor: zero(size),
            }
        } else {
            Written {
                outcome: Err(Refusal::Size),
                coprocessor: zero(1),
            }
        }
    }
}
