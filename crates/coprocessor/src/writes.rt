ghost use Rattle.std.specs.Prelude.{◌≡◌, ◌%◌, set};
ghost use Rattle.parts.specs.Latches.{map_latched};
ghost use Rattle.rules.specs.Maps.{map_at};
ghost use Rattle.coprocessor.specs.Writes.{stored, starts_by, write_refusal, write_answer};
ghost use Rattle.coprocessor.specs.Inner.{lower_refusal};

use crate::known::Known;
use crate::starts::OPERATIONS_LAST;
use crate::{Coprocessor, Written};
use numbers::bytes::Write;
use parts::drawing::is_unfinished;
use parts::latches::{latch_map, latch_registers};
use parts::refusals::Refusal;
use parts::registers::{is_listed, is_placed};
use parts::takes::touches;
use pixels::Map;
use rules::operations::draws;

// The maps after the write: the selected one takes its bytes.
#[tactic(auto, unfolding(rules::specs::Maps::map_at))]
fn latch_maps(maps: [Map; 4], index: u8, w: Write) -> [Map; 4]
    ensures { result ≡ set maps (index % 4) (map_latched w (map_at maps index)) }
{
    let i = (index % 4) as usize;
    let mut latched = maps;
    let map = latched[i];
    latched[i] = latch_map(map, w);
    latched
}

impl Coprocessor {
    // The record with the write's bytes stored and reduced.
    #[tactic(auto, unfolding(crate::specs::Writes::stored))]
    fn stored(self, w: Write) -> Coprocessor
        ensures { result ≡ stored w self }
    {
        Coprocessor {
            maps: latch_maps(self.maps, self.registers.index, w),
            registers: latch_registers(self.registers, w),
            ..self
        }
    }

    // The refusal of a write among 1 to 8, if any, where `next` is the record with the write stored and `starts` whether that
    // starts a drawing.
    #[tactic(auto, using(crate::proofs::PlaceLaws::placed_known, parts::proofs::TakeLaws::touched_one), unfolding(crate::specs::Inner::lower_refusal, crate::specs::Writes::started_refusal))]
    fn lower_refusal(self, w: Write, next: Coprocessor, starts: bool) -> Result<(), Refusal>
        requires { (next ≡ stored w self) × (starts ≡ starts_by w next) }
        ensures { result ≡ lower_refusal w self }
    {
        if !is_placed(w.offset, w.length) {
            return Err(Refusal::Place);
        }
        if is_unfinished(self.drawing) {
            return Err(Refusal::Unfinished);
        }
        if !is_listed(w.offset, w.length) {
            return Err(Refusal::Unlisted);
        }
        if touches(1, OPERATIONS_LAST, w) & !draws(next.registers.figure.operations) {
            return Err(Refusal::Function);
        }
        if starts {
            next.start_refusal()?;
        }
        Ok(())
    }

    // The refusal of a write, if any: the lowest of 1 to 8, or 10.
    #[tactic(auto, using(crate::proofs::WriteLaws::write_then10))]
    fn write_refusal(self, w: Write, next: Coprocessor, starts: bool) -> Result<(), Refusal>
        requires { (next ≡ stored w self) × (starts ≡ starts_by w next) }
        ensures { result ≡ write_refusal w self }
    {
        self.lower_refusal(w, next, starts)?;
        if !self.is_valid() {
            return Err(Refusal::Image);
        }
        Ok(())
    }

    // What a write of this outcome answers.
    #[tactic(auto, unfolding(crate::specs::Writes::write_answer, crate::specs::Writes::settled_by))]
    fn answered(
        self,
        w: Write,
        next: Coprocessor,
        starts: bool,
        outcome: Result<(), Refusal>,
    ) -> Written
        requires { (next ≡ stored w self) × (starts ≡ starts_by w next) × (outcome ≡ write_refusal w self) }
        ensures { result ≡ write_answer w self }
    {
        let coprocessor = match outcome {
            Err(_) => self,
            Ok(()) if starts => next.start(w.length as u8),
            Ok(()) => next,
        };
        Written {
            outcome,
            coprocessor,
        }
    }

    // Writes the `length` low bytes of `value` from `offset` on, and starts a drawing where that is asked; a refused write
    // hands the record back as it was.
    pub fn write(self, offset: u32, length: u32, value: u32) -> Written
        ensures { result ≡ write_answer (record { offset = offset; length = length; value = value }) self }
    {
        let w = Write {
            offset,
            length,
            value,
        };
        let next = self.stored(w);
        let starts = next.starts(w);
        let outcome = self.write_refusal(w, next, starts);
        self.answered(w, next, starts, outcome)
    }
}

impl Known {
    // A write, as on any record.
    #[tactic(auto, using(crate::proofs::WriteLaws::write_then10, crate::proofs::WriteLaws::valid_then10))]
    pub fn write(self, offset: u32, length: u32, value: u32) -> Written
        ensures { result ≡ write_answer (record { offset = offset; length = length; value = value }) self.coprocessor }
    {
        let w = Write {
            offset,
            length,
            value,
        };
        let next = self.coprocessor.stored(w);
        let starts = next.starts(w);
        let outcome = self.coprocessor.lower_refusal(w, next, starts);
        self.coprocessor.answered(w, next, starts, outcome)
    }
}
