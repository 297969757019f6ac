// The pixels of a lane that lie elsewhere in their bytes than those that they are made of: whole bytes joined of two, and parts of one at its ends.

ghost use Rattle.std.specs.Prelude.{◌≡◌, ℕ, ◌+◌, ◌*◌, ◌/◌, ◌^◌, ◌<◌, ◌≤◌, false, length, ◌≢◌};
ghost use Rattle.pixels.specs.Maps.{bits_of};
ghost use Rattle.pixels.specs.Inner.{shift_at};
ghost use Rattle.rows.specs.Inner.{wholly, Alike, Reach, swept, First, Passed, Apart, joined, slid, Turned};

use crate::bytes::lowest;
use crate::sweeps::mend;
use crate::wholes::blend_bytes;
use crate::{Lane, Whole};
use pixels::{bits_of, place_at, shift_at};

// The byte of the upper bits of one, and above them the lowest of another.
fn join(low: u8, high: u8, down: u32) -> u8
    requires { (0 < down) × (down < 8) }
    ensures { result ≡ joined down low high }
{
    (low >> down) | (high << (8 - down))
}

// Bytes blended with those that the bytes of two ranges are joined to.
fn slide_forth(
    memory: &mut [u8],
    whole: Whole,
    down: u32,
    low: usize,
    high: usize,
    to: usize,
    count: usize,
)
    requires { ((0 < down) × (down < 8)) × (low + count ≤ length memory.old) × (high + count ≤ length memory.old) × (to + count ≤ length memory.old) }
    ensures { memory.new ≡ slid (wholly whole) down false low high to count memory.old }
{
    for i in 0..count {
        let s = join(memory[low + i], memory[high + i], down);
        memory[to + i] = blend_bytes(whole, s, memory[to + i]);
    }
}

// The first pixels of a lane, which lie in one byte behind those that are passed.
fn slide_edge(memory: &mut [u8], lane: Lane, whole: Whole, down: u32, passed: u32, count: u32)
    requires { Apart lane count (length memory.old)
        × Turned lane down
        × Passed lane.back lane.format lane.to passed
        × ((passed + count) * bits_of lane.format ≤ 8) }
    ensures { (op : ℕ → ℕ → ℕ) → Alike lane.format op (wholly whole) → memory.new ≡ swept op lane count memory.old }
{
    if count == 0 {
        return;
    }
    let top = lane.is_from_top();
    let low = lane.source_end(top, count);
    let high = lane.source_end(!top, count);
    let s = join(memory[low], memory[high], down);
    mend(
        memory,
        whole,
        s,
        place_at(lane.format, lane.destination, lane.to),
        lane.edge_from(passed, count),
        count * bits_of(lane.format),
    );
}

// The pixels of so many whole bytes, from the lowest byte on.
fn slide_whole(memory: &mut [u8], lane: Lane, whole: Whole, down: u32, bytes: u32)
    requires { Apart lane (bytes * (8 / bits_of lane.format)) (length memory.old)
        × Turned lane down
        × First lane.back lane.format lane.to }
    ensures { (op : ℕ → ℕ → ℕ) → Alike lane.format op (wholly whole) →
        memory.new ≡ swept op lane (bytes * (8 / bits_of lane.format)) memory.old }
{
    if bytes == 0 {
        return;
    }
    let top = lane.is_from_top();
    let per = lane.pixels_in(1);
    let low = lane.source_end(top, per);
    let high = lane.source_end(!top, per);
    let to = place_at(lane.format, lane.destination, lane.to);
    let count = bytes as usize;
    slide_forth(
        memory,
        whole,
        down,
        lowest(lane.back, low, count),
        lowest(lane.back, high, count),
        lowest(lane.back, to, count),
        count,
    );
}

// The pixels of a lane that begins a byte: its whole bytes, and those that are left.
fn slide_bytes(memory: &mut [u8], lane: Lane, whole: Whole, down: u32, count: u32)
    requires { Apart lane count (length memory.old) × Turned lane down × First lane.back lane.format lane.to }
    ensures { (op : ℕ → ℕ → ℕ) → Alike lane.format op (wholly whole) → memory.new ≡ swept op lane count memory.old }
{
    let bytes = lane.bytes_in(count);
    slide_whole(memory, lane, whole, down, bytes);
    let done = lane.pixels_in(bytes);
    if done < count {
        slide_edge(memory, lane.onward(done), whole, down, 0, count - done);
    }
}

// The first pixels of a lane, each so many bits further down in its byte than the one that it comes from.
fn slide_down(memory: &mut [u8], lane: Lane, whole: Whole, down: u32, count: u32)
    requires { Apart lane count (length memory.old) × Turned lane down }
    ensures { (op : ℕ → ℕ → ℕ) → Alike lane.format op (wholly whole) → memory.new ≡ swept op lane count memory.old }
{
    let before = lane.lead(count);
    let passed = lane.gone();
    slide_edge(memory, lane, whole, down, passed, before);
    if before < count {
        slide_bytes(memory, lane.onward(before), whole, down, count - before);
    }
}

// The first pixels of a lane in another phase, each made of the one that it comes from, in a byte that is not written, and itself.
pub fn slide(memory: &mut [u8], lane: Lane, whole: Whole, count: u32)
    requires { Apart lane count (length memory.old) × (shift_at lane.format lane.to ≢ shift_at lane.format lane.from) }
    ensures { (op : ℕ → ℕ → ℕ) → Alike lane.format op (wholly whole) → memory.new ≡ swept op lane count memory.old }
{
    let here = shift_at(lane.format, lane.to);
    let there = shift_at(lane.format, lane.from);
    slide_down(memory, lane, whole, (8 + there - here) % 8, count);
}
