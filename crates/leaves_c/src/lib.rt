// The leaves of all drawing for C: each export calls the function of `leaves` that has its name, and has that function's promise.
#![tactic(auto)]

ghost use Rattle.std.specs.Prelude.{◌≡◌, leb};
ghost use Rattle.numbers.specs.Choose.{choose};
ghost use Rattle.mixes.specs.Mixes.{mixed};
ghost use Rattle.mixes.specs.Conditions.{condition_holds};
ghost use Rattle.pixels.specs.Maps.{needed_of};
ghost use Rattle.pixels.specs.Pixels.{pixel_at, with_pixel};

// The destination pixel after a mix under the plane mask.
#[unsafe(no_mangle)]
pub extern "C" fn leaf_mix(bits: u32, code: u8, planes: u32, source: u32, destination: u32) -> u32
    ensures { result ≡ choose (leb bits 8) (mixed bits code planes source destination) 4294967295 }
{
    leaves::leaf_mix(bits, code, planes, source, destination)
}

// 1 where the compare condition is true of the destination, otherwise 0.
#[unsafe(no_mangle)]
pub extern "C" fn leaf_holds(
    bits: u32,
    condition: u8,
    planes: u32,
    destination: u32,
    value: u32,
) -> u32
    ensures { result ≡ choose (leb bits 8) (choose (condition_holds bits condition planes destination value) 1 0) 4294967295 }
{
    leaves::leaf_holds(bits, condition, planes, destination, value)
}

// The bytes that a map of this last column, last row and format needs.
#[unsafe(no_mangle)]
pub extern "C" fn leaf_needed(width: u16, height: u16, format: u8) -> u64
    ensures { result ≡ needed_of (record { base = 0; width = width; height = height; format = format }) }
{
    leaves::leaf_needed(width, height, format)
}

// Pixel (x, y) of a map, 0 beyond the memory.
#[unsafe(no_mangle)]
pub extern "C" fn leaf_get(memory: &[u8], base: u32, width: u16, format: u8, x: u16, y: u16) -> u32
    ensures { result ≡ pixel_at memory.now (record { base = base; width = width; height = 0; format = format }) x y }
{
    leaves::leaf_get(memory, base, width, format, x, y)
}

// Makes pixel (x, y) of a map the low bits of `value`; beyond the memory nothing is written.
#[unsafe(no_mangle)]
pub extern "C" fn leaf_put(
    memory: &mut [u8],
    base: u32,
    width: u16,
    format: u8,
    x: u16,
    y: u16,
    value: u32,
)
    ensures { memory.new ≡ with_pixel memory.old (record { base = base; width = width; height = 0; format = format }) x y value }
{
    leaves::leaf_put(memory, base, width, format, x, y, value)
}
