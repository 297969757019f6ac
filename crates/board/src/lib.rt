// The coprocessor for C and Rust: each call works on a state image of 115 bytes that the caller owns, and asks once whether it is valid.
// The calls answer numbers, since C calls them.
#![tactic(auto)]

ghost use Rattle.std.specs.Prelude.{◌≡◌, true, false, MatchResult};
ghost use Rattle.parts.specs.declared.refusals.Refusal.TheVariants.{Image};
ghost use Rattle.coprocessor.specs.Images.{loads, loaded};
ghost use Rattle.board.specs.Calls.{call_answer, fresh_number, fresh_image, write_number, write_image, read_number, run_number, run_image, run_bytes, load_number};

use coprocessor::Coprocessor;
use coprocessor::known::Known;
use image::layout::BYTES;
use parts::refusals::{Refusal, number};

// An outcome in the high word, a value in the low.
#[tactic(auto, unfolding(crate::specs::Calls::call_answer))]
fn answer(outcome: Result<(), Refusal>, value: u32) -> u64
    ensures { result ≡ call_answer outcome value }
{
    number(outcome) as u64 * 4294967296 + value as u64
}

// The record that an image is, which is valid where the image loads.
fn opened(image: &[u8]) -> Result<Known, Refusal>
    ensures { MatchResult result (λ known. (loads image.now ≡ true) × (known.coprocessor ≡ loaded image.now))
        (λ refusal. (loads image.now ≡ false) × (refusal ≡ Image)) }
{
    let opened = Coprocessor::unpack(image);
    opened.outcome?;
    Ok(Known {
        coprocessor: opened.coprocessor,
    })
}

// Makes the image that of a fresh state over a memory of this size: 0; 9 for a size outside the limit, with the image of a
// fresh state of size 1; or 10 for a buffer not of 115 bytes. Such a buffer always stays as it is.
#[tactic(auto, unfolding(crate::specs::Calls::fresh_number, crate::specs::Calls::fresh_image, coprocessor::specs::Images::saves, coprocessor::specs::Images::save_refusal, coprocessor::specs::Images::saved))]
pub fn xga_fresh(image: &mut [u8], size: u32) -> u32
    ensures { (result ≡ fresh_number image.old size) × (image.new ≡ fresh_image image.old size) }
{
    let made = Coprocessor::fresh(size);
    if image.len() == BYTES {
        made.coprocessor.save_known(image);
        return number(made.outcome);
    }
    match made.outcome {
        Ok(()) => number(Err(Refusal::Image)),
        Err(refusal) => number(Err(refusal)),
    }
}

// Writes the low bytes of `value` from `offset` on: 0, or the refusal, which leaves the image as it was.
#[tactic(auto, using(laws::proofs::LoadedLaws::loads_length), unfolding(crate::specs::Calls::write_number, crate::specs::Calls::write_image))]
pub fn xga_write(image: &mut [u8], offset: u32, length: u32, value: u32) -> u32
    ensures { (result ≡ write_number image.old (record { offset = offset; length = length; value = value }))
        × (image.new ≡ write_image image.old (record { offset = offset; length = length; value = value })) }
{
    let Ok(known) = opened(image) else {
        return number(Err(Refusal::Image));
    };
    let written = known.write(offset, length, value);
    if written.outcome.is_ok() {
        written.coprocessor.save_known(image);
    }
    number(written.outcome)
}

// Reads `length` bytes from `offset` on: the refusal times 2 to the 32, plus the value.
#[tactic(auto, unfolding(crate::specs::Calls::read_number, crate::specs::Calls::call_answer))]
pub fn xga_read(image: &[u8], offset: u32, length: u32) -> u64
    ensures { result ≡ read_number image.now offset length }
{
    match opened(image) {
        Ok(known) => {
            let found = known.read(offset, length);
            answer(found.outcome, found.value)
        }
        Err(refusal) => answer(Err(refusal), 0),
    }
}

// Does at most `allowance` positions of the drawing in hand: the refusal times 2 to the 32, plus the positions done.
#[tactic(auto, using(laws::proofs::LoadedLaws::loads_length, laws::proofs::LoadedLaws::saved_valid, laws::proofs::LoadedLaws::loaded_valid, laws::proofs::RunValid::run_valid), unfolding(crate::specs::Calls::run_number, crate::specs::Calls::run_image, crate::specs::Calls::run_bytes, crate::specs::Calls::call_answer))]
pub fn xga_run(image: &mut [u8], memory: &mut [u8], allowance: u32) -> u64
    ensures { (result ≡ run_number image.old memory.old allowance)
        × (image.new ≡ run_image image.old memory.old allowance)
        × (memory.new ≡ run_bytes image.old memory.old allowance) }
{
    let Ok(known) = opened(image) else {
        return answer(Err(Refusal::Image), 0);
    };
    let drawn = known.run(memory, allowance);
    drawn.coprocessor.save_known(image);
    answer(drawn.outcome, drawn.done)
}

// 0 where the image would load, otherwise 10.
#[tactic(auto, using(coprocessor::proofs::Opened::open_number), unfolding(crate::specs::Calls::load_number))]
pub fn xga_load(image: &[u8]) -> u32
    ensures { result ≡ load_number image.now }
{
    number(Coprocessor::unpack(image).outcome)
}
