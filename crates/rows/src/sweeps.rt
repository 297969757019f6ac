// The pixels of a lane: as whole bytes where they fill them, and as a part of one at its ends.

ghost use Rattle.std.specs.Prelude.{◌≡◌, ℕ, ◌+◌, ◌-◌, ◌*◌, ◌^◌, ◌<◌, ◌≤◌, length, slice_index, slice_set};
ghost use Rattle.numbers.specs.Fields.{field, with_field};
ghost use Rattle.pixels.specs.Maps.{bits_of};
ghost use Rattle.rows.specs.Inner.{wholly, Alike, swept, Lies, First, Passed};

use crate::bytes::{Stretch, carry};
use crate::wholes::blend_bytes;
use crate::{Lane, Whole};
use numbers::bytes::ones;
use pixels::{bits_of, place_at};

// So many bits of a byte from a shift on.
fn span(shift: u32, bits: u32) -> u8
    requires { shift + bits ≤ 8 }
    ensures { result ≡ 2 ^ (bits + shift) - 2 ^ shift }
{
    (ones(bits) << shift) as u8
}

// Some bits of a byte, as the blend makes them of that byte and another.
pub(crate) fn mend(memory: &mut [u8], whole: Whole, s: u8, at: usize, shift: u32, bits: u32)
    requires { (at < length memory.old) × (shift + bits ≤ 8) }
    ensures { memory.new ≡ slice_set memory.old at (with_field shift bits
        (field shift bits (wholly whole s (slice_index memory.old at))) (slice_index memory.old at)) }
{
    let d = memory[at];
    let made = blend_bytes(whole, s, d);
    memory[at] = d ^ ((made ^ d) & span(shift, bits));
}

// The same, of another byte of memory.
fn touch(memory: &mut [u8], whole: Whole, from: usize, at: usize, shift: u32, bits: u32)
    requires { (from < length memory.old) × (at < length memory.old) × (shift + bits ≤ 8) }
    ensures { memory.new ≡ slice_set memory.old at (with_field shift bits
        (field shift bits (wholly whole (slice_index memory.old from) (slice_index memory.old at))) (slice_index memory.old at)) }
{
    let s = memory[from];
    mend(memory, whole, s, at, shift, bits);
}

// The first pixels of a lane, which lie in one byte behind those that are passed.
fn edge(memory: &mut [u8], lane: Lane, whole: Whole, passed: u32, count: u32)
    requires { Lies lane count (length memory.old)
        × Passed lane.back lane.format lane.to passed
        × ((passed + count) * bits_of lane.format ≤ 8) }
    ensures { (op : ℕ → ℕ → ℕ) → Alike lane.format op (wholly whole) → memory.new ≡ swept op lane count memory.old }
{
    if count == 0 {
        return;
    }
    touch(
        memory,
        whole,
        place_at(lane.format, lane.source, lane.from),
        place_at(lane.format, lane.destination, lane.to),
        lane.edge_from(passed, count),
        count * bits_of(lane.format),
    );
}

// The pixels of a lane that begins a byte: its whole bytes, and those that are left.
fn sweep_bytes(memory: &mut [u8], lane: Lane, whole: Whole, count: u32)
    requires { Lies lane count (length memory.old) × (0 < count) × First lane.back lane.format lane.to }
    ensures { (op : ℕ → ℕ → ℕ) → Alike lane.format op (wholly whole) → memory.new ≡ swept op lane count memory.old }
{
    let bytes = lane.bytes_in(count);
    carry(
        memory,
        whole,
        Stretch {
            back: lane.back,
            from: place_at(lane.format, lane.source, lane.from),
            to: place_at(lane.format, lane.destination, lane.to),
            count: bytes as usize,
        },
    );
    let done = lane.pixels_in(bytes);
    if done < count {
        edge(memory, lane.onward(done), whole, 0, count - done);
    }
}

// The first pixels of a lane, each made of the one that it comes from and itself.
pub fn sweep(memory: &mut [u8], lane: Lane, whole: Whole, count: u32)
    requires { Lies lane count (length memory.old) }
    ensures { (op : ℕ → ℕ → ℕ) → Alike lane.format op (wholly whole) → memory.new ≡ swept op lane count memory.old }
{
    let before = lane.lead(count);
    let passed = lane.gone();
    edge(memory, lane, whole, passed, before);
    if before < count {
        sweep_bytes(memory, lane.onward(before), whole, count - before);
    }
}
