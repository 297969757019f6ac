// Bytes of a lent slice made one after another, in loops that the compiler can make wide: nothing is asked in them.

ghost use Rattle.std.specs.Prelude.{◌≡◌, ℕ, ◌+◌, ◌-◌, ◌^◌, ◌<◌, ◌≤◌, true, ◌&&◌, length, ◌==◌};
ghost use Rattle.numbers.specs.Choose.{choose};
ghost use Rattle.mixes.specs.Inner.{Gives};
ghost use Rattle.rows.specs.Inner.{wholly, along, Reach, Held, made};

use crate::Whole;
use crate::wholes::blend_bytes;

// So many bytes, back or forth from the place `to` on, and as many that they are made of, from the place `from` on.
#[derive(Clone, Copy)]
pub(crate) struct Stretch {
    pub(crate) back: bool,
    pub(crate) from: usize,
    pub(crate) to: usize,
    pub(crate) count: usize,
}

// The i-th place from one on, back or forth.
#[inline(always)]
pub(crate) fn place(back: bool, n: usize, i: usize) -> usize
    requires { Reach back n (i + 1) (2 ^ 64) }
    ensures { result ≡ along back n i }
{
    if back { n - i } else { n + i }
}

// Bytes made one after another, each of its source and itself; where the two ranges meet, later ones read what earlier ones wrote.
// Each call knows the direction, so that nothing is asked in the loop. A const parameter would say so, but no proof of one beside a
// closure's bound is built.
#[inline(always)]
fn make<F: Fn(u8, u8) -> u8>(memory: &mut [u8], byte: F, on: Stretch)
    requires { F.IsAlwaysCallable byte × Held on (length memory.old) }
    ensures { (op : ℕ → ℕ → ℕ) → Gives (F.post byte) op → memory.new ≡ made op on memory.old }
{
    for i in 0..on.count {
        let at = place(on.back, on.to, i);
        memory[at] = byte(memory[place(on.back, on.from, i)], memory[at]);
    }
}

// The same, in a direction that is known only now.
fn make_along<F: Fn(u8, u8) -> u8>(memory: &mut [u8], byte: F, on: Stretch)
    requires { F.IsAlwaysCallable byte × Held on (length memory.old) }
    ensures { (op : ℕ → ℕ → ℕ) → Gives (F.post byte) op → memory.new ≡ made op on memory.old }
{
    if on.back {
        make(memory, byte, Stretch { back: true, ..on });
    } else {
        make(memory, byte, Stretch { back: false, ..on });
    }
}

// Whether a blend takes nothing from the source.
fn is_solid(whole: Whole) -> bool
    ensures { result ≡ (whole.source == 0) && (whole.both == 0) }
{
    (whole.source == 0) & (whole.both == 0)
}

// Whether a blend is the source as it is.
fn is_copy(whole: Whole) -> bool
    ensures { result ≡ (whole.always == 0 && whole.source == 255) && (whole.destination == 255 && whole.both == 0) }
{
    ((whole.always == 0) & (whole.source == 255)) & ((whole.destination == 255) & (whole.both == 0))
}

// The lowest of so many places, back or forth from one.
pub(crate) fn lowest(back: bool, from: usize, count: usize) -> usize
    requires { back ≡ true → (count ≤ from + 1) × (from + 1 < 2 ^ 64) }
    ensures { result ≡ choose back (from + 1 - count) from }
{
    if back { from + 1 - count } else { from }
}

// Bytes blended with their sources, by the shortest loop that does it: of bytes that take nothing from them, or that are as they are, or
// of any.
pub(crate) fn carry(memory: &mut [u8], whole: Whole, on: Stretch)
    requires { Held on (length memory.old) }
    ensures { memory.new ≡ made (wholly whole) on memory.old }
{
    if is_solid(whole) {
        let first = lowest(on.back, on.to, on.count);
        make(
            memory,
            move |_, d| d ^ (whole.always ^ (whole.destination & d)),
            Stretch {
                back: false,
                from: first,
                to: first,
                ..on
            },
        );
    } else if is_copy(whole) {
        make_along(memory, |s, _| s, on);
    } else {
        make_along(memory, move |s, d| blend_bytes(whole, s, d), on);
    }
}
