// Single pixels, each a step from the one before.

ghost use Rattle.std.specs.Prelude.{◌≡◌, ℕ, ◌+◌, ◌^◌, ◌<◌, ◌≤◌, true, length};
ghost use Rattle.pixels.specs.Maps.{bits_of};
ghost use Rattle.pixels.specs.Inner.{place_at};
ghost use Rattle.rows.specs.Inner.{wholly, Alike, pixel_no, with_pixel_no, Dotted};
ghost use Rattle.rows.specs.Inner.{Termed, error_at, number_at, turns_at, traced, stepped, straight_on, Reached, Stands, Goes, Straight};

use crate::sweeps::mend;
use crate::{Traced, Trail, Whole};
use pixels::{bits_of, place_at, shift_at};
use std::num::wrapping_add_u32;

// The byte that a blend makes of one where it takes nothing from a source.
fn alone(whole: Whole, d: u8) -> u8
    ensures { result ≡ wholly whole 0 d }
{
    whole.always ^ ((whole.destination ^ 255) & d)
}

// Pixel number n of a map of whole bytes, made by a blend that takes nothing from a source.
fn byte(memory: &mut [u8], base: u32, whole: Whole, n: u32)
    requires { base + n < length memory.old }
    ensures { (format : ℕ) → bits_of format ≡ 8 → Dotted format base n whole memory.old memory.new }
{
    let at = (base as usize) + (n as usize);
    memory[at] = alone(whole, memory[at]);
}

// The same of a map of any pixels, as a part of a byte. Format, base and number stand here as `pixels::place_at` asks for them.
fn part(memory: &mut [u8], format: u8, base: u32, whole: Whole, n: u32)
    requires { place_at format base n < length memory.old }
    ensures { Dotted format base n whole memory.old memory.new }
{
    mend(
        memory,
        whole,
        0,
        place_at(format, base, n),
        shift_at(format, n),
        bits_of(format),
    );
}

// Pixel number n of a map, made by a blend that takes nothing from a source.
pub fn dot(memory: &mut [u8], format: u8, base: u32, whole: Whole, n: u32)
    requires { place_at format base n < length memory.old }
    ensures { (op : ℕ → ℕ → ℕ) → Alike format op (wholly whole)
        → memory.new ≡ with_pixel_no format base n (op 0 (pixel_no format base n memory.old)) memory.old }
{
    if bits_of(format) == 8 {
        byte(memory, base, whole, n);
    } else {
        part(memory, format, base, whole, n);
    }
}

impl Traced {
    // One step more, by this stride and this term.
    fn step(self, stride: u32, term: u32) -> Traced
        requires { (self.e < 16384) × (term < 16384) × (self.done + 1 < 2 ^ 32) }
        ensures { result ≡ stepped self stride term }
    {
        Traced {
            at: wrapping_add_u32(self.at, stride),
            e: (self.e + term) % 16384,
            done: self.done + 1,
        }
    }

    // Whether there is a next pixel, and the step to it does not turn.
    fn is_straight(self, count: u32) -> bool
        ensures { result ≡ straight_on self count }
    {
        (self.done < count) & (self.e < 8192)
    }
}

impl Trail {
    // The step that does not turn.
    fn ahead(self, gone: Traced) -> Traced
        requires { (gone.e < 16384) × Termed self × (gone.done + 1 < 2 ^ 32) }
        ensures { result ≡ stepped gone self.straight self.k1 }
    {
        gone.step(self.straight, self.k1)
    }
}

// The pixels up to the next turn, each a whole byte, or each of any bits.
fn straight_by<const BYTES: bool>(
    memory: &mut [u8],
    trail: Trail,
    whole: Whole,
    from: Traced,
    count: u32,
) -> Traced
    requires { (BYTES ≡ true → bits_of trail.format ≡ 8) × Stands trail count from (length memory.old) }
    ensures { Straight trail whole count from result memory.old memory.new }
{
    let mut gone = from;
    while gone.is_straight(count) {
        if BYTES {
            byte(memory, trail.base, whole, gone.at);
        } else {
            part(memory, trail.format, trail.base, whole, gone.at);
        }
        gone = trail.ahead(gone);
    }
    gone
}

// The same, by the shorter of the two loops that does it.
fn straight(memory: &mut [u8], trail: Trail, whole: Whole, from: Traced, count: u32) -> Traced
    requires { Stands trail count from (length memory.old) }
    ensures { Straight trail whole count from result memory.old memory.new }
{
    if bits_of(trail.format) == 8 {
        straight_by::<true>(memory, trail, whole, from, count)
    } else {
        straight_by::<false>(memory, trail, whole, from, count)
    }
}

// The pixel at a turn, and the step that turns.
fn bend(memory: &mut [u8], trail: Trail, whole: Whole, from: Traced) -> Traced
    requires { Termed trail
        × Reached trail from
        × (from.done + 1 < 2 ^ 32)
        × (8192 ≤ from.e)
        × (place_at trail.format trail.base from.at < length memory.old) }
    ensures { (result.done ≡ from.done + 1) × Goes trail whole from result 1 memory.old memory.new }
{
    dot(memory, trail.format, trail.base, whole, from.at);
    from.step(trail.turned, trail.k2)
}

// The first pixels of a trail, as many as are asked, or fewer where another turn would be one too many: then every turn is taken.
pub fn trace(memory: &mut [u8], trail: Trail, whole: Whole, count: u32, turns: u32) -> Traced
    requires { Termed trail
        × ((i : ℕ) → i < count → turns_at trail i ≤ turns → place_at trail.format trail.base (number_at trail i) < length memory.old) }
    ensures { (result.done ≤ count)
        × (turns_at trail result.done ≤ turns)
        × (result.at ≡ number_at trail result.done)
        × (result.e ≡ error_at trail result.done)
        × ((op : ℕ → ℕ → ℕ) → Alike trail.format op (wholly whole)
        → memory.new ≡ traced (op 0) trail result.done memory.old)
        × (result.done < count → turns_at trail result.done ≡ turns) }
{
    let mut gone = Traced {
        at: trail.at,
        e: trail.e,
        done: 0,
    };
    for _ in 0..turns {
        gone = straight(memory, trail, whole, gone, count);
        if gone.done == count {
            return gone;
        }
        gone = bend(memory, trail, whole, gone);
    }
    straight(memory, trail, whole, gone, count)
}
