ghost use Rattle.std.specs.Prelude.{◌≡◌, ℕ, ◌%◌, ◌<◌, eqb};
ghost use Rattle.numbers.specs.Choose.{choose};
ghost use Rattle.mixes.specs.Mixes.{mixed};
ghost use Rattle.mixes.specs.Inner.{Cut, Gives, made_by, blended};

use crate::Depth;
use std::ops::{BitAnd, BitXor};

// A logical mix under a plane mask, by the bits of D that it turns: the exclusive or of four masks, of which one counts always,
// one where S is 1, one where D is 1, and one where both are. The masks are of one pixel, or of all those in a byte.
#[derive(Clone, Copy)]
pub struct Blend<T> {
    pub always: T,
    pub source: T,
    pub destination: T,
    pub both: T,
}

// The planes where the last bit of `bits` is 1, and otherwise none.
fn spread(bits: u8, planes: u32) -> u32
    ensures { result ≡ choose (eqb (bits % 2) 1) planes 0 }
{
    if bits % 2 == 1 { planes } else { 0 }
}

// The blend of the mix `code`, from 0 to 15, by its four bits: no bit is turned that the plane mask does not enable.
pub fn blend_of(depth: Depth, code: u8) -> Blend<u32>
    ensures { Cut depth → code < 16 → (s d : ℕ) → blended depth.bits result s d ≡ mixed depth.bits code depth.planes s d }
{
    let planes = depth.planes;
    let both = spread(code, planes);
    let source = spread(code / 2, planes);
    let destination = spread(code / 4, planes);
    let neither = spread(code / 8, planes);
    Blend {
        always: neither,
        source: source ^ neither,
        destination: (destination ^ neither) ^ planes,
        both: (both ^ source) ^ (destination ^ neither),
    }
}

// The blend with this source, whatever the source pixel is.
pub fn solid(blend: Blend<u32>, source: u32) -> Blend<u32>
    ensures { (n s d : ℕ) → blended n result s d ≡ blended n blend source d }
{
    Blend {
        always: blend.always ^ (blend.source & source),
        source: 0,
        destination: blend.destination ^ (blend.both & source),
        both: 0,
    }
}

impl<T: Copy + BitAnd<Output = T> + BitXor<Output = T>> Blend<T> {
    // What it makes of a source and a destination, by what `&` and `^` give.
    pub fn of(self, source: T, destination: T) -> T
        requires { (a b : T) → T.can_bitand a b × T.can_bitxor a b }
        ensures { (and xor : T → T → T) → Gives T.bitand_gives and → Gives T.bitxor_gives xor
            → result ≡ made_by and xor self source destination }
    {
        let always = self.always ^ (self.source & source);
        let turned = self.destination ^ (self.both & source);
        destination ^ (always ^ (turned & destination))
    }
}

// The pixel that a blend makes of two pixels.
pub fn blend_pixels(depth: Depth, blend: Blend<u32>, source: u32, destination: u32) -> u32
    requires { Cut depth }
    ensures { result ≡ blended depth.bits blend source destination }
{
    blend.of(source, destination & depth.ones)
}
