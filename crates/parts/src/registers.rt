// The register bank: which reads and writes are placed, and which bytes are listed.

ghost use Rattle.std.specs.Prelude.{◌≡◌, ◌-◌, ◌/◌, ◌%◌, ◌^◌, ◌≤◌, ◌<◌, eqb};
ghost use Rattle.parts.specs.Registers.{listed, placed};

use numbers::bytes::ones;

// The largest offset.
const LAST: u32 = 0x7F;

// A bit for each offset from 00 to 3F hex, the lowest bit first: set where the byte there is listed.
const FIRST_HALF: u64 = 0x0000_FFFF_1FF4_0000;

// The same from 40 to 7F hex.
const SECOND_HALF: u64 = 0xFFFF_F00F_FFFF_F700;

// Whether the length is 1, 2 or 4, and the offset a multiple of it within the bank.
pub fn is_placed(offset: u32, length: u32) -> bool
    ensures { result ≡ placed offset length }
{
    // The length is a number of bytes, and no kind; each asks for its own multiple, so that no division is by a variable.
    match length {
        1 => offset <= LAST,
        2 => (offset % 2 == 0) & (offset <= LAST),
        4 => (offset % 4 == 0) & (offset <= LAST),
        _ => false,
    }
}

// Whether so many bits from a place on are all set.
fn all_set(bits: u64, from: u32, count: u32) -> bool
    requires { (from < 64) × (count ≤ 4) }
    ensures { result ≡ eqb (bits / 2 ^ from % 2 ^ count) (2 ^ count - 1) }
{
    let ones = ones(count) as u64;
    (bits >> from) & ones == ones
}

// Whether every one of the bytes from the offset on is of a listed register.
pub fn is_listed(offset: u32, length: u32) -> bool
    requires { (offset ≤ 127) × (length ≤ 4) }
    ensures { result ≡ listed length offset }
{
    if offset < 64 {
        all_set(FIRST_HALF, offset, length)
    } else {
        all_set(SECOND_HALF, offset - 64, length)
    }
}
