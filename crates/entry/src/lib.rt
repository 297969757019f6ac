// The entry for a board's main program: it changes the record in the caller's own storage.
#![tactic(auto)]

ghost use Rattle.std.specs.Prelude.{◌≡◌};
ghost use Rattle.coprocessor.specs.Writes.{write_answer};

use coprocessor::{Coprocessor, Written};
use parts::refusals::Refusal;

// Writes registers of the coprocessor that the caller owns, and answers the write's outcome.
pub fn write_in(c: &mut Coprocessor, offset: u32, length: u32, value: u32) -> Result<(), Refusal>
    ensures { (result ≡ (write_answer (record { offset = offset; length = length; value = value }) c.old).outcome)
        × (c.new ≡ (write_answer (record { offset = offset; length = length; value = value }) c.old).coprocessor) }
{
    let written = c.write(offset, length, value);
    *c = written.coprocessor;
    written.outcome
}

// The smallest caller: it lends a record of its own to the entry.
pub fn write_own(held: Coprocessor, offset: u32, length: u32, value: u32) -> Written
    ensures { result ≡ write_answer (record { offset = offset; length = length; value = value }) held }
{
    let mut own = held;
    let outcome = write_in(&mut own, offset, length, value);
    Written {
        outcome,
        coprocessor: own,
    }
}
