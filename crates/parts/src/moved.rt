// What a drawing changes of the registers.

ghost use Rattle.std.specs.Prelude.{◌≡◌};
ghost use Rattle.parts.specs.Moved.{with_moved};

use crate::shapes::{Pointers, Registers, Terms};

// The registers with another E and other pointers.
#[tactic(auto, unfolding(crate::specs::Moved::with_moved))]
pub fn with_moved(e: i32, pointers: Pointers, registers: Registers) -> Registers
    ensures { result ≡ with_moved e pointers registers }
{
    Registers {
        terms: Terms {
            e,
            ..registers.terms
        },
        pointers,
        ..registers
    }
}
