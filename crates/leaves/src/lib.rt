// The leaves of all drawing, for C and Rust: a mix of two pixels, a compare condition, a pixel in lent memory.
#![tactic(auto)]

ghost use Rattle.std.specs.Prelude.{◌≡◌, leb};
ghost use Rattle.numbers.specs.Choose.{choose};
ghost use Rattle.mixes.specs.Mixes.{mixed};
ghost use Rattle.mixes.specs.Conditions.{condition_holds};
ghost use Rattle.pixels.specs.Maps.{needed_of};
ghost use Rattle.pixels.specs.Pixels.{pixel_at, with_pixel};

use pixels::Map;

// What a call on pixels of more than 8 bits answers. C is handed numbers and hands them in, a map's one by one, so that the
// refusal, a condition's answer and its number are numbers here too.
const TOO_WIDE: u32 = 4294967295;

// The destination pixel after a mix under the plane mask.
pub fn leaf_mix(bits: u32, code: u8, planes: u32, source: u32, destination: u32) -> u32
    ensures { result ≡ choose (leb bits 8) (mixed bits code planes source destination) 4294967295 }
{
    if bits <= 8 {
        mixes::mix(mixes::depth_of(bits, planes), code, source, destination)
    } else {
        TOO_WIDE
    }
}

// 1 where the compare condition is true of the destination, otherwise 0.
pub fn leaf_holds(bits: u32, condition: u8, planes: u32, destination: u32, value: u32) -> u32
    ensures { result ≡ choose (leb bits 8) (choose (condition_holds bits condition planes destination value) 1 0) 4294967295 }
{
    if bits <= 8 {
        mixes::conditions::holds(
            mixes::depth_of(bits, planes),
            condition,
            destination,
            value,
        ) as u32
    } else {
        TOO_WIDE
    }
}

// The bytes that a map of this last column, last row and format needs.
pub fn leaf_needed(width: u16, height: u16, format: u8) -> u64
    ensures { result ≡ needed_of (record { base = 0; width = width; height = height; format = format }) }
{
    pixels::needed(Map {
        base: 0,
        width,
        height,
        format,
    })
}

// Pixel (x, y) of a map, 0 beyond the memory.
pub fn leaf_get(memory: &[u8], base: u32, width: u16, format: u8, x: u16, y: u16) -> u32
    ensures { result ≡ pixel_at memory.now (record { base = base; width = width; height = 0; format = format }) x y }
{
    let map = Map {
        base,
        width,
        height: 0,
        format,
    };
    if memory.len() <= pixels::place(map, x, y) {
        return 0;
    }
    pixels::get(memory, map, x, y)
}

// Makes pixel (x, y) of a map the low bits of `value`; beyond the memory nothing is written.
pub fn leaf_put(memory: &mut [u8], base: u32, width: u16, format: u8, x: u16, y: u16, value: u32)
    ensures { memory.new ≡ with_pixel memory.old (record { base = base; width = width; height = 0; format = format }) x y value }
{
    let map = Map {
        base,
        width,
        height: 0,
        format,
    };
    if pixels::place(map, x, y) < memory.len() {
        pixels::put(memory, map, x, y, value);
    }
}
