ghost use Rattle.std.specs.Prelude.{◌≡◌, ◌+◌, ◌^◌, ◌%◌, ◌≤◌, ◌<◌, pos, ◌+ℤ◌, ◌-ℤ◌};
ghost use Rattle.std.specs.Int.{w16, w32};
ghost use Rattle.std.proofs.Common.{to_z};
ghost use Rattle.numbers.specs.Circles.{forth, back, residue, circle};

// A map's pointer runs from 0 to `last`, one less than the map's size. Forth and back have no line in common, so each has a
// function, and a single step, unlike several, needs no division.

// The remainder of a pointer by its map's size.
pub fn remainder(x: u16, last: u16) -> u16
    ensures { result ≡ x % (last + 1) }
{
    (x as u32 % (last as u32 + 1)) as u16
}

// One step forth of a pointer in its map: past the last comes the first.
pub fn step_forth(x: u16, last: u16) -> u16
    requires { x ≤ last }
    ensures { result ≡ forth (last + 1) 1 x }
{
    if x < last { x + 1 } else { 0 }
}

// One step back of a pointer in its map: before the first comes the last.
pub fn step_back(x: u16, last: u16) -> u16
    requires { x ≤ last }
    ensures { result ≡ back (last + 1) 1 x }
{
    if x == 0 { last } else { x - 1 }
}

// `count` steps forth at once.
pub fn steps_forth(x: u16, last: u16, count: u16) -> u16
    ensures { result ≡ forth (last + 1) count x }
{
    ((x as u32 + count as u32) % (last as u32 + 1)) as u16
}

// `count` steps back at once.
pub fn steps_back(x: u16, last: u16, count: u16) -> u16
    ensures { result ≡ back (last + 1) count x }
{
    let size = last as u32 + 1;
    ((x as u32 + (size - count as u32 % size)) % size) as u16
}

// The library's casts, which it has for each width, as the registers' numbers.

// The four bytes that a signed register reads back.
pub fn word(z: i32) -> u32
    ensures { result ≡ residue (2 ^ 32) z }
{
    z.cast_unsigned()
}

// The two bytes that a signed register reads back.
pub fn half_word(z: i16) -> u16
    ensures { result ≡ residue (2 ^ 16) z }
{
    z.cast_unsigned()
}

// The signed number of four bytes.
pub fn signed_word(x: u32) -> i32
    ensures { result ≡ to_z w32 x }
{
    x.cast_signed()
}

// The signed number of two bytes.
pub fn signed_half(x: u16) -> i16
    ensures { result ≡ to_z w16 x }
{
    x.cast_signed()
}

// A number's place on a circle of so many numbers, of which the lowest is so far below 0. Both are constants, so that no
// division is by a variable.
fn onto<const BELOW: u32, const SIZE: u32>(x: u32) -> i32
    requires { (0 < SIZE) × (BELOW + SIZE < 2 ^ 31) }
    ensures { result ≡ circle BELOW SIZE (pos x) }
{
    ((x % SIZE + BELOW) % SIZE) as i32 - BELOW as i32
}

// E, K1 or K2 as the four written bytes leave it.
pub fn term(x: u32) -> i32
    ensures { result ≡ circle 8192 16384 (pos x) }
{
    onto::<8192, 16384>(x)
}

// The sum of two terms, reduced as in a write.
pub fn term_sum(e: i32, k: i32) -> i32
    ensures { result ≡ circle 8192 16384 (e +ℤ k) }
{
    term(word(e) % 16384 + word(k) % 16384)
}

// A destination pointer as the two written bytes leave it.
pub fn destination(x: u32) -> i16
    ensures { result ≡ circle 2048 8192 (pos x) }
{
    onto::<2048, 8192>(x) as i16
}

// `count` steps forth on the destination's circle: past 6,143 comes -2,048.
pub fn destination_forth(z: i16, count: u16) -> i16
    ensures { result ≡ circle 2048 8192 (z +ℤ pos count) }
{
    destination(half_word(z) as u32 + count as u32)
}

// `count` steps back: before -2,048 comes 6,143.
pub fn destination_back(z: i16, count: u16) -> i16
    ensures { result ≡ circle 2048 8192 (z -ℤ pos count) }
{
    destination(half_word(z) as u32 + (8192 - count as u32 % 8192))
}
