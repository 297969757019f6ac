// A pixel of 1, 2, 4 or 8 bits in lent bytes.
#![tactic(auto)]

ghost use Rattle.std.specs.Prelude.{◌≡◌, ◌+◌, ◌*◌, ◌-◌, ◌^◌, ◌≤◌, ◌<◌, length, set};
ghost use Rattle.numbers.specs.Choose.{choose};
ghost use Rattle.numbers.specs.Fields.{field, with_field};
ghost use Rattle.pixels.specs.Maps.{bits_of, place_of, is_motorola, shift_of, needed_of};
ghost use Rattle.pixels.specs.Pixels.{pixel_at, with_pixel};
ghost use Rattle.pixels.specs.Inner.{place_at, shift_at, cell_at};

use numbers::bytes::ones;

// A pixel map: where it starts, one less than its width and height in pixels, and its format code.
#[derive(Clone, Copy)]
pub struct Map {
    pub base: u32,
    pub width: u16,
    pub height: u16,
    pub format: u8,
}

// A pixel's bits in its byte: the byte's index, what it holds, and how far up and how many the bits are. That they lie within the
// byte stands in the clauses: as a part of the type, the definition `cell_at` would carry its proof.
#[derive(Clone, Copy)]
pub struct Cell {
    pub at: usize,
    pub byte: u8,
    pub shift: u32,
    pub bits: u32,
}

// The size of a pixel of this format, in bits.
pub fn bits_of(format: u8) -> u32
    ensures { result ≡ bits_of format }
{
    1 << (format % 4)
}

// The bytes that the map takes from its base on.
pub fn needed(map: Map) -> u64
    ensures { result ≡ needed_of map }
{
    let row = (map.width as u64) + 1;
    let rows = (map.height as u64) + 1;
    (row * rows * (bits_of(map.format) as u64) + 7) / 8
}

// How many pixels of the map come before this one: its number. A map and its two numbers are handed in apart, as C does: the
// numbers are any, inside the map or not.
pub fn index(map: Map, x: u16, y: u16) -> u32
    ensures { result ≡ y * (map.width + 1) + x }
{
    (y as u32) * ((map.width as u32) + 1) + (x as u32)
}

// The index of the byte in which pixel number n of a map from `base` on lies.
pub fn place_at(format: u8, base: u32, n: u32) -> usize
    ensures { result ≡ place_at format base n }
{
    (base as usize) + ((n >> (3 - format % 4)) as usize)
}

// The index of the byte in which the pixel lies, which may be beyond the memory.
pub fn place(map: Map, x: u16, y: u16) -> usize
    ensures { result ≡ place_of map x y }
{
    place_at(map.format, map.base, index(map, x, y))
}

// Whether the format's order bit is Motorola order.
pub fn is_motorola(format: u8) -> bool
    ensures { result ≡ is_motorola format }
{
    format / 8 % 2 == 1
}

// What turns over the number of a pixel within its byte: all bits in Motorola order, and none in Intel order.
fn mirror(format: u8) -> u32
    ensures { result ≡ choose (is_motorola format) (2 ^ 32 - 1) 0 }
{
    if is_motorola(format) { 0xFFFF_FFFF } else { 0 }
}

// How far above its byte's lowest bit pixel number n of a map lies.
pub fn shift_at(format: u8, n: u32) -> u32
    ensures { result ≡ shift_at format n }
{
    ((n ^ mirror(format)) << (format % 4)) & 7
}

// How far above its byte's lowest bit the pixel lies.
fn shift(map: Map, x: u16, y: u16) -> u32
    ensures { result ≡ shift_of map x y }
{
    shift_at(map.format, index(map, x, y))
}

// The pixel's bits in its byte, which lies in the memory.
pub fn find(memory: &[u8], map: Map, x: u16, y: u16) -> Cell
    requires { place_of map x y < length memory.now }
    ensures { result ≡ cell_at memory.now map x y }
{
    let at = place(map, x, y);
    let byte = memory[at];
    Cell {
        at,
        byte,
        shift: shift(map, x, y),
        bits: bits_of(map.format),
    }
}

// The pixel of the cell.
pub fn value(cell: Cell) -> u32
    requires { cell.shift + cell.bits ≤ 8 }
    ensures { result ≡ field cell.shift cell.bits cell.byte }
{
    ((cell.byte as u32) >> cell.shift) & ones(cell.bits)
}

// The cell's byte with another pixel: the bits change in which the old one and the low bits of the new one differ.
fn replaced(cell: Cell, new: u32) -> u8
    requires { cell.shift + cell.bits ≤ 8 }
    ensures { result ≡ with_field cell.shift cell.bits new cell.byte }
{
    let changed = value(cell) ^ (new & ones(cell.bits));
    ((cell.byte as u32) ^ (changed << cell.shift)) as u8
}

// Stores the low bits of value as the pixel of the cell.
pub fn store(memory: &mut [u8], cell: Cell, value: u32)
    requires { (cell.shift + cell.bits ≤ 8) × (cell.at < length memory.old) }
    ensures { memory.new ≡ set memory.old cell.at (with_field cell.shift cell.bits value cell.byte) }
{
    memory[cell.at] = replaced(cell, value);
}

// The pixel, which lies in the memory.
pub fn get(memory: &[u8], map: Map, x: u16, y: u16) -> u32
    requires { place_of map x y < length memory.now }
    ensures { result ≡ pixel_at memory.now map x y }
{
    value(find(memory, map, x, y))
}

// Stores the low bits of value as the pixel, which lies in the memory.
pub fn put(memory: &mut [u8], map: Map, x: u16, y: u16, value: u32)
    requires { place_of map x y < length memory.old }
    ensures { memory.new ≡ with_pixel memory.old map x y value }
{
    store(memory, find(memory, map, x, y), value);
}
