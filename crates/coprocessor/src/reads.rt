ghost use Rattle.std.specs.Prelude.{◌≡◌, true};
ghost use Rattle.parts.specs.Registers.{placed};
ghost use Rattle.coprocessor.specs.Reads.{value_at, read_refusal, read_answer};
ghost use Rattle.coprocessor.specs.Inner.{place_refusal};

use crate::known::Known;
use crate::{Coprocessor, Found};
use image::words::bank;
use numbers::bytes::part;
use parts::refusals::Refusal;
use parts::registers::{is_listed, is_placed};

// The refusal of a read's place, if any: 1, 3.
#[tactic(auto, using(crate::proofs::PlaceLaws::placed_known), unfolding(crate::specs::Inner::place_refusal))]
fn place_refusal(offset: u32, length: u32) -> Result<(), Refusal>
    ensures { result ≡ place_refusal offset length }
{
    if !is_placed(offset, length) {
        return Err(Refusal::Place);
    }
    if !is_listed(offset, length) {
        return Err(Refusal::Unlisted);
    }
    Ok(())
}

impl Coprocessor {
    // The refusal of a read, if any: 1, 3, 10.
    #[tactic(auto, using(crate::proofs::WriteLaws::read_then10))]
    fn read_refusal(self, offset: u32, length: u32) -> Result<(), Refusal>
        ensures { result ≡ read_refusal self offset length }
    {
        place_refusal(offset, length)?;
        if !self.is_valid() {
            return Err(Refusal::Image);
        }
        Ok(())
    }

    // The bytes of the bank at a placed offset and length, which lie in one word.
    fn value_at(self, offset: u32, length: u32) -> u32
        requires { placed offset length ≡ true }
        ensures { result ≡ value_at self offset length }
    {
        let words = bank(self.maps, self.registers);
        let i = (offset / 4) as usize;
        part(words[i], offset % 4, length)
    }

    // What a read of this outcome answers.
    #[tactic(auto, unfolding(crate::specs::Reads::read_answer))]
    fn found(self, offset: u32, length: u32, outcome: Result<(), Refusal>) -> Found
        requires { outcome ≡ read_refusal self offset length }
        ensures { result ≡ read_answer self offset length }
    {
        let value = match outcome {
            Ok(()) => self.value_at(offset, length),
            Err(_) => 0,
        };
        Found {
            outcome,
            value,
            coprocessor: self,
        }
    }

    // The `length` bytes of the bank from `offset` on, least significant first, and 0 where the read is refused; with the
    // record as it was.
    pub fn read(self, offset: u32, length: u32) -> Found
        ensures { result ≡ read_answer self offset length }
    {
        self.found(offset, length, self.read_refusal(offset, length))
    }
}

impl Known {
    // A read, as of any record.
    #[tactic(auto, using(crate::proofs::WriteLaws::read_then10, crate::proofs::WriteLaws::valid_then10))]
    pub fn read(self, offset: u32, length: u32) -> Found
        ensures { result ≡ read_answer self.coprocessor offset length }
    {
        let outcome = place_refusal(offset, length);
        self.coprocessor.found(offset, length, outcome)
    }
}
