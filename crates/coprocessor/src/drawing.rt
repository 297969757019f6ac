ghost use Rattle.std.specs.Prelude.{◌≡◌, length};
ghost use Rattle.coprocessor.specs.Runs.{setup_of, pen_of, with_pen, run_refusal, run_answer, run_memory};

use crate::known::Known;
use crate::{Coprocessor, Drawn};
use moves::Pen;
use moves::decoded::travel_of;
use parts::moved::with_moved;
use parts::refusals::Refusal;
use places::Setup;
use places::decoded::brush_of;
use runs::run;

impl Coprocessor {
    // What a drawing does not change, decoded once.
    #[tactic(auto, unfolding(crate::specs::Runs::setup_of))]
    fn setup(self) -> Setup
        ensures { result ≡ setup_of self }
    {
        let registers = self.registers;
        Setup {
            travel: travel_of(registers.figure, self.maps, registers.terms),
            brush: brush_of(registers.figure, self.maps, registers.colours),
        }
    }

    // What a drawing changes beside memory.
    #[tactic(auto, unfolding(crate::specs::Runs::pen_of))]
    fn pen(self) -> Pen
        ensures { result ≡ pen_of self }
    {
        Pen {
            pointers: self.registers.pointers,
            e: self.registers.terms.e,
            drawing: self.drawing,
        }
    }

    // The record with what a drawing changed.
    #[tactic(auto, unfolding(crate::specs::Runs::with_pen))]
    fn with_pen(self, pen: Pen) -> Coprocessor
        ensures { result ≡ with_pen self pen }
    {
        Coprocessor {
            registers: with_moved(pen.e, pen.pointers, self.registers),
            drawing: pen.drawing,
            ..self
        }
    }

    // The refusal of a run, if any: 9, 10.
    #[tactic(auto, unfolding(crate::specs::Runs::run_refusal))]
    fn run_refusal(self, memory: &[u8]) -> Result<(), Refusal>
        ensures { result ≡ run_refusal self memory.now }
    {
        if memory.len() != self.size as usize {
            return Err(Refusal::Size);
        }
        if !self.is_valid() {
            return Err(Refusal::Image);
        }
        Ok(())
    }

    // Does the next positions of the drawing in hand, at most as many as the allowance; a refused run does none and changes
    // nothing.
    #[tactic(auto, using(crate::proofs::SafeLaws::run_allowed), unfolding(crate::specs::Runs::run_answer, crate::specs::Runs::run_memory))]
    pub fn run(self, memory: &mut [u8], allowance: u32) -> Drawn
        ensures { (result ≡ run_answer self memory.old allowance) × (memory.new ≡ run_memory self memory.old allowance) }
    {
        if let Err(refusal) = self.run_refusal(memory) {
            return Drawn {
                outcome: Err(refusal),
                done: 0,
                coprocessor: self,
            };
        }
        Known { coprocessor: self }.ran(memory, allowance)
    }
}

impl Known {
    // The run, over a memory of the record's size.
    fn ran(self, memory: &mut [u8], allowance: u32) -> Drawn
        requires { length memory.old ≡ self.coprocessor.size }
        ensures { (result ≡ run_answer self.coprocessor memory.old allowance) × (memory.new ≡ run_memory self.coprocessor memory.old allowance) }
    {
        let ran = run(
            self.coprocessor.setup(),
            self.coprocessor.pen(),
            memory,
            allowance,
        );
        Drawn {
            outcome: Ok(()),
            done: ran.done,
            coprocessor: self.coprocessor.with_pen(ran.pen),
        }
    }

    // A run, as of any record.
    #[tactic(auto, unfolding(crate::specs::Runs::run_refusal, crate::specs::Runs::run_answer, crate::specs::Runs::run_memory))]
    pub fn run(self, memory: &mut [u8], allowance: u32) -> Drawn
        ensures { (result ≡ run_answer self.coprocessor memory.old allowance) × (memory.new ≡ run_memory self.coprocessor memory.old allowance) }
    {
        if memory.len() != self.coprocessor.size as usize {
            return Drawn {
                outcome: Err(Refusal::Size),
                done: 0,
                coprocessor: self.coprocessor,
            };
        }
        self.ran(memory, allowance)
    }
}
