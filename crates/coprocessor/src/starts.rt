ghost use Rattle.std.specs.Prelude.{◌≡◌};
ghost use Rattle.coprocessor.specs.Writes.{starts_by, started};

use crate::Coprocessor;
use numbers::bytes::Write;
use parts::moved::with_moved;
use parts::takes::touches;
use rules::operations::{is_block, is_codes, is_line};
use rules::starts::{start_drawing, start_pointers};

// The last byte of the pixel operations, whose write starts lines and blocks.
pub(crate) const OPERATIONS_LAST: u8 = 0x7F;

// The last byte of the direction steps, whose write starts draw and step.
const STEPS_LAST: u8 = 0x2F;

impl Coprocessor {
    // Whether the write, already stored, starts a drawing.
    #[tactic(auto, using(parts::proofs::TakeLaws::touched_one), unfolding(crate::specs::Writes::starts_by))]
    pub(crate) fn starts(self, w: Write) -> bool
        ensures { result ≡ starts_by w self }
    {
        let operations = self.registers.figure.operations;
        let drawn = is_line(operations) | is_block(operations);
        let by_operations = touches(1, OPERATIONS_LAST, w) & drawn;
        let by_steps = touches(1, STEPS_LAST, w) & is_codes(operations);
        by_operations | by_steps
    }

    // The record as a drawing starts it: used pointers turned into their maps, the counters at zero, or a stop at a first code 00.
    #[tactic(auto, unfolding(crate::specs::Writes::started))]
    pub(crate) fn start(self, length: u8) -> Coprocessor
        ensures { result ≡ started length self }
    {
        let registers = self.registers;
        let turned = start_pointers(registers.figure.operations, self.maps, registers.pointers);
        Coprocessor {
            registers: with_moved(registers.terms.e, turned, registers),
            drawing: start_drawing(registers.figure, length),
            ..self
        }
    }
}
