// The registers of a fresh state.

ghost use Rattle.std.specs.Prelude.{◌≡◌};
ghost use Rattle.parts.specs.Fresh.{fresh_registers};

use crate::shapes::Registers;

// All zero.
#[tactic(auto, unfolding(crate::specs::Fresh::fresh_registers))]
pub fn zero_registers() -> Registers
    ensures { result ≡ fresh_registers }
{
    Registers::default()
}
