// What a register of each kind takes from a write: where the write touches it, the bytes that it covers, reduced; elsewhere the
// register stays as it is, reduced or not.

ghost use Rattle.std.specs.Prelude.{◌≡◌, ◌≤◌, Some, None};
ghost use Rattle.numbers.specs.Bytes.{latched};
ghost use Rattle.numbers.specs.Choose.{choose};
ghost use Rattle.parts.specs.Registers.{whole, low_bits, twelve, term, coordinate};
ghost use Rattle.parts.specs.Takes.{touched, taken, taken_onto};

use numbers::bytes::Write;
use numbers::{bytes, circles};

// Whether a write, of at least one byte, covers some byte of a register of so many bytes at offset `at`.
pub fn touches(bytes: u32, at: u8, w: Write) -> bool
    ensures { result ≡ touched bytes at w }
{
    (w.offset as u64) < at as u64 + bytes as u64 && (at as u64) < w.offset as u64 + w.length as u64
}

// The number that a register of so many bytes holds after the write, before it is reduced, where the write touches it.
fn take(bytes: u32, stored: u32, at: u8, w: Write) -> Option<u32>
    requires { bytes ≤ 4 }
    ensures { result ≡ choose (touched bytes at w) (Some (latched bytes at w stored)) None }
{
    if touches(bytes, at, w) {
        Some(bytes::latch(bytes, stored, at, w))
    } else {
        None
    }
}

// A register of one byte, after the write.
pub(crate) fn take_byte(stored: u8, at: u8, w: Write) -> u8
    ensures { result ≡ taken (whole 1 at) w stored }
{
    take(1, stored as u32, at, w).map_or(stored, |x| bytes::byte(x, 0))
}

// A register of one byte that is reduced to so many bits.
pub(crate) fn take_bits(bits: u32, stored: u8, at: u8, w: Write) -> u8
    requires { bits ≤ 8 }
    ensures { result ≡ taken (low_bits bits 1 at) w stored }
{
    take(1, stored as u32, at, w).map_or(stored, |x| bytes::low_bits(bits, bytes::byte(x, 0)))
}

// A register of two bytes that is reduced to 12 bits.
pub(crate) fn take_twelve_bits(stored: u16, at: u8, w: Write) -> u16
    ensures { result ≡ taken (twelve at) w stored }
{
    take(2, stored as u32, at, w).map_or(stored, bytes::twelve_bits)
}

// A register of four bytes.
pub(crate) fn take_word(stored: u32, at: u8, w: Write) -> u32
    ensures { result ≡ taken (whole 4 at) w stored }
{
    take(4, stored, at, w).unwrap_or(stored)
}

// E, K1 or K2: a register of four bytes that is reduced to -8,192 to 8,191.
pub(crate) fn take_term(stored: i32, at: u8, w: Write) -> i32
    ensures { result ≡ taken_onto (term at) w stored }
{
    take(4, circles::word(stored), at, w).map_or(stored, circles::term)
}

// A destination pointer: a register of two bytes that is reduced to -2,048 to 6,143.
pub(crate) fn take_destination(stored: i16, at: u8, w: Write) -> i16
    ensures { result ≡ taken_onto (coordinate at) w stored }
{
    take(2, circles::half_word(stored) as u32, at, w).map_or(stored, circles::destination)
}
