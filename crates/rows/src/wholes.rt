// What one pixel of a byte becomes, worked for all of them at once.

ghost use Rattle.std.specs.Prelude.{◌≡◌};
ghost use Rattle.mixes.specs.Inner.{blended};
ghost use Rattle.pixels.specs.Maps.{bits_of};
ghost use Rattle.rows.specs.Inner.{repeated_in, wholly, Alike};

use crate::Whole;
use mixes::logical::Blend;

// A pixel's mask, repeated over a byte. The size is the format's own number, whose four values these are.
fn repeated(format: u8, mask: u32) -> u8
    ensures { result ≡ repeated_in format mask }
{
    let size = format % 4;
    match size {
        0 => (mask % 2 * 255) as u8,
        1 => (mask % 4 * 85) as u8,
        2 => (mask % 16 * 17) as u8,
        _ => (mask % 256) as u8,
    }
}

// The blend of bytes that is this one of every pixel in them.
pub fn whole_of(format: u8, blend: Blend<u32>) -> Whole
    ensures { Alike format (blended (bits_of format) blend) (wholly result) }
{
    Whole {
        always: repeated(format, blend.always),
        source: repeated(format, blend.source),
        destination: repeated(format, blend.destination),
        both: repeated(format, blend.both),
    }
}

// The byte that a blend makes of two bytes.
pub(crate) fn blend_bytes(whole: Whole, s: u8, d: u8) -> u8
    ensures { result ≡ wholly whole s d }
{
    whole.of(s, d)
}
