ghost use Rattle.std.specs.Prelude.{◌≡◌, Ok, Err};
ghost use Rattle.coprocessor.specs.Images as defined;
ghost use Rattle.numbers.specs.Choose.{choose};
ghost use Rattle.parts.specs.declared.refusals.Refusal.TheVariants.{Image};
ghost use Rattle.coprocessor.specs.Images.{loaded, load_answer};
ghost use Rattle.coprocessor.specs.Inner.{opened_of};

use crate::fresh::zero;
use crate::{Coprocessor, Written};
use image::counters::{counters_of, drawing_of};
use image::layout::BYTES;
use image::reading::{counters_from, is_marked, maps_from, registers_from, size_from};
use parts::refusals::Refusal;

// The record that the image is.
#[tactic(auto, unfolding(crate::specs::Images::loaded))]
fn record_from(buffer: &[u8; BYTES]) -> Coprocessor
    ensures { result ≡ loaded buffer.now }
{
    let registers = registers_from(buffer);
    Coprocessor {
        size: size_from(buffer),
        maps: maps_from(buffer),
        registers,
        drawing: drawing_of(registers.figure.operations, counters_from(buffer)),
    }
}

// Whether the image loads, where `next` is the record that it is.
fn loads(buffer: &[u8; BYTES], next: Coprocessor) -> bool
    requires { next ≡ loaded buffer.now }
    ensures { result ≡ defined.loads buffer.now }
{
    is_marked(buffer) & (counters_from(buffer) == counters_of(next.drawing)) & next.is_valid()
}

// Refusal 10, unless an image loads.
fn refusal_of(loads: bool) -> Result<(), Refusal>
    ensures { result ≡ choose loads (Ok tt) (Err Image) }
{
    if loads { Ok(()) } else { Err(Refusal::Image) }
}

impl Coprocessor {
    // Whether an image loads, and the record that it is: with a refusal, the one that its bytes make, or a fresh one where they
    // are too few or too many.
    #[tactic(auto, unfolding(crate::specs::Images::loads, crate::specs::Inner::opened_of))]
    pub fn unpack(buffer: &[u8]) -> Written
        ensures { result ≡ opened_of buffer.now }
    {
        let Some(image) = buffer.as_array() else {
            return Written {
                outcome: Err(Refusal::Image),
                coprocessor: zero(1),
            };
        };
        let next = record_from(image);
        Written {
            outcome: refusal_of(loads(image, next)),
            coprocessor: next,
        }
    }

    // The record that an image is; a refused load hands the record back as it was.
    pub fn load(self, buffer: &[u8]) -> Written
        ensures { result ≡ load_answer self buffer.now }
    {
        let opened = Coprocessor::unpack(buffer);
        match opened.outcome {
            Ok(()) => opened,
            Err(_) => Written {
                coprocessor: self,
                ..opened
            },
        }
    }
}
