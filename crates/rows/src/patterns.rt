// Pixels of 8 bits inked by a pattern: each by one of two blends, as the pattern's pixel of 1 bit is.

ghost use Rattle.std.specs.Prelude.{◌≡◌, ℕ, ◌+◌, ◌*◌, ◌%◌, ◌<◌, ◌≤◌, length};
ghost use Rattle.numbers.specs.Choose.{choose};
ghost use Rattle.numbers.specs.Fields.{field};
ghost use Rattle.rows.specs.Inner.{swept_from, Meets, Inked, inked_by, inks_of, mirror_of, row_inked, Beside};

use crate::bytes::lowest;
use crate::{Lane, Whole};
use pixels::is_motorola;

// What two blends turn always, and what they keep of a byte; and whether the pattern is in Motorola order.
#[derive(Clone, Copy)]
struct Inks {
    front_always: u8,
    front_keeps: u8,
    rear_always: u8,
    rear_keeps: u8,
    motorola: bool,
}

impl Inks {
    // What turns over a pixel's number within a byte of the pattern: in Motorola order the first pixel is the byte's highest.
    fn mirror(self) -> usize
        ensures { (result ≡ mirror_of self) × (result < 8) }
    {
        if self.motorola { 7 } else { 0 }
    }
}

// One of two bytes.
fn either(first: bool, a: u8, b: u8) -> u8
    ensures { result ≡ choose first a b }
{
    if first { a } else { b }
}

// The byte that the pattern's bit at a shift makes of one.
fn ink(inks: Inks, pattern: u8, shift: usize, d: u8) -> u8
    requires { shift < 8 }
    ensures { result ≡ inked_by inks (field shift 1 pattern) d }
{
    let bit: u8 = 1 << shift;
    let front = inks.front_always ^ (inks.front_keeps & d);
    let rear = inks.rear_always ^ (inks.rear_keeps & d);
    either(pattern & bit != 0, front, rear)
}

// Bytes inked by the pattern from its pixel number n on, one by one.
fn dots(memory: &mut [u8], inks: Inks, source: usize, n: usize, at: usize, count: usize)
    requires { Beside source n at count (length memory.old) }
    ensures { memory.new ≡ row_inked inks source n at count memory.old }
{
    let mirror = inks.mirror();
    for i in 0..count {
        let number = n + i;
        let pattern = memory[source + number / 8];
        memory[at + i] = ink(inks, pattern, (number % 8) ^ mirror, memory[at + i]);
    }
}

// Sixteen bytes, inked by two. It is not the loop above: with the two bytes read before it and its length fixed the compiler can make it
// one wide step.
fn sixteen(memory: &mut [u8], inks: Inks, place: usize, at: usize)
    requires { Beside place 0 at 16 (length memory.old) }
    ensures { memory.new ≡ row_inked inks place 0 at 16 memory.old }
{
    let first = memory[place];
    let second = memory[place + 1];
    let mirror = inks.mirror();
    for i in 0..16 {
        let pattern = either(i < 8, first, second);
        memory[at + i] = ink(inks, pattern, (i % 8) ^ mirror, memory[at + i]);
    }
}

// So many times sixteen bytes.
fn sixteens(memory: &mut [u8], inks: Inks, place: usize, at: usize, count: usize)
    requires { Beside place 0 at (count * 16) (length memory.old) }
    ensures { memory.new ≡ row_inked inks place 0 at (count * 16) memory.old }
{
    for i in 0..count {
        sixteen(memory, inks, place + i * 2, at + i * 16);
    }
}

// How many pixels come before the first byte of the pattern from which sixteen can be made at once, and all where none can.
fn lead(n: usize, count: usize) -> usize
    ensures { (result ≤ count) × (result < count → (n + result) % 8 ≡ 0) }
{
    let left = (8 - n % 8) % 8;
    if left + 16 <= count { left } else { count }
}

// The same: one by one to where a byte of the pattern begins, then sixteen at once, and one by one.
fn row(memory: &mut [u8], inks: Inks, source: usize, n: usize, at: usize, count: usize)
    requires { Beside source n at count (length memory.old) × (0 < count) }
    ensures { memory.new ≡ row_inked inks source n at count memory.old }
{
    let before = lead(n, count);
    dots(memory, inks, source, n, at, before);
    let whole = (count - before) / 16;
    sixteens(memory, inks, source + (n + before) / 8, at + before, whole);
    let done = before + whole * 16;
    dots(memory, inks, source, n + done, at + done, count - done);
}

// What two blends make of pixels, by a pattern in this order.
fn inks_of(order: u8, front: Whole, rear: Whole) -> Inks
    ensures { result ≡ inks_of order front rear }
{
    Inks {
        front_always: front.always,
        front_keeps: front.destination ^ 255,
        rear_always: rear.always,
        rear_keeps: rear.destination ^ 255,
        motorola: is_motorola(order),
    }
}

// The first pixels of a lane, each made by the blend in front where the pixel of 1 bit that it comes from is 1, and by the one in the
// rear where it is 0; in any direction from the lower end on, as the pattern lies apart.
pub fn expand(memory: &mut [u8], lane: Lane, order: u8, front: Whole, rear: Whole, count: u32)
    requires { Meets lane order count (length memory.old) }
    ensures { (op : ℕ → ℕ → ℕ) → Inked op front rear → memory.new ≡ swept_from order op lane count memory.old }
{
    if count == 0 {
        return;
    }
    let n = lowest(lane.back, lane.from as usize, count as usize);
    let at = (lane.destination as usize) + lowest(lane.back, lane.to as usize, count as usize);
    row(
        memory,
        inks_of(order, front, rear),
        lane.source as usize,
        n,
        at,
        count as usize,
    );
}
