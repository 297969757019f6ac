// The mixes, the plane mask and the compare conditions, over pixels of up to 8 bits.
#![tactic(auto)]

ghost use Rattle.std.specs.Prelude.{◌≡◌, ◌^◌, ◌≤◌, ◌<◌};
ghost use Rattle.mixes.specs.Mixes.{depth_of, merged, mixed};
ghost use Rattle.mixes.specs.Inner.{Cut};

use arithmetic::arithmetic;
use logical::{blend_of, blend_pixels};
use numbers::bytes::ones;

mod arithmetic;
pub mod conditions;
pub mod logical;

// The bits of a pixel, the pixel that is all ones, and the plane mask cut to them: worked once for a drawing. That it is cut to at
// most 8 bits (`Cut`) stands in the clauses: `depth_of` of specs makes a depth of any two numbers, and `blend_of` takes any depth.
#[derive(Clone, Copy)]
pub struct Depth {
    pub bits: u32,
    pub ones: u32,
    pub planes: u32,
}

// The depth of pixels of so many bits under a plane mask.
pub fn depth_of(bits: u32, planes: u32) -> Depth
    requires { bits ≤ 8 }
    ensures { result ≡ depth_of bits planes }
{
    let ones = ones(bits);
    Depth {
        bits,
        ones,
        planes: planes & ones,
    }
}

// The mix's bits where the plane mask enables them, and the destination's elsewhere.
fn merge(depth: Depth, res: u32, destination: u32) -> u32
    requires { Cut depth × (res < 2 ^ depth.bits) × (destination < 2 ^ depth.bits) }
    ensures { result ≡ merged depth.bits depth.planes res destination }
{
    destination ^ ((res ^ destination) & depth.planes)
}

// The destination pixel after the mix `code` under the plane mask: codes 0 to 15 are logical, 16 to 21 arithmetic, and any
// other gives 0 in the bits that the mask enables.
pub fn mix(depth: Depth, code: u8, source: u32, destination: u32) -> u32
    requires { Cut depth }
    ensures { result ≡ mixed depth.bits code depth.planes source destination }
{
    if code < 16 {
        return blend_pixels(depth, blend_of(depth, code), source, destination);
    }
    let result = arithmetic(depth, code, source, destination);
    merge(depth, result, destination & depth.ones)
}
