ghost use Rattle.std.specs.Prelude.{◌≡◌, ◌+◌, ◌-◌, ◌^◌, ◌≤◌, ◌<◌, length, take, drop};
ghost use Rattle.std.proofs.lemmas.List.Edits.{sets};
ghost use Rattle.numbers.specs.Choose.{choose};
ghost use Rattle.numbers.specs.Bytes.{le, number_of, byte_of, part_of, low, covers, latched};

// A write of `length` bytes of `value` from `offset` on.
#[derive(Clone, Copy)]
pub struct Write {
    pub offset: u32,
    pub length: u32,
    pub value: u32,
}

// Byte `k` of `x`, 0 past its fourth.
pub fn byte(x: u32, k: u32) -> u8
    ensures { result ≡ byte_of x k }
{
    if k < 4 {
        ((x >> (8 * k)) % 256) as u8
    } else {
        0
    }
}

// The `length` bytes of `x` that follow its lowest `skip`.
pub fn part(x: u32, skip: u32, length: u32) -> u32
    requires { skip + length ≤ 4 }
    ensures { result ≡ part_of skip length x }
{
    let above = x as u64 >> (8 * skip);
    (above % (1u64 << (8 * length))) as u32
}

// The largest number of so many bits.
pub fn ones(bits: u32) -> u32
    requires { bits < 32 }
    ensures { result ≡ 2 ^ bits - 1 }
{
    (1 << bits) - 1
}

// The low bits of a byte, so many of them.
pub fn low_bits(bits: u32, x: u8) -> u8
    requires { bits ≤ 8 }
    ensures { result ≡ low bits x }
{
    (x as u32 % (1u32 << bits)) as u8
}

// The low 12 bits, of a number of two bytes: by a constant, where `low_bits` shifts.
pub fn twelve_bits(x: u32) -> u16
    ensures { result ≡ low 12 x }
{
    (x % 4096) as u16
}

// The byte at offset `at`: the write's where it covers that offset, otherwise `stored`.
fn latch_byte(stored: u8, at: u32, w: Write) -> u8
    ensures { result ≡ choose (covers w at) (byte_of w.value (at - w.offset)) stored }
{
    if w.offset <= at && at - w.offset < w.length {
        byte(w.value, at - w.offset)
    } else {
        stored
    }
}

// What a register of so many bytes at offset `at` takes from a write, from its highest byte down. One copy of it serves all
// registers: a write touches few.
#[inline(never)]
pub fn latch(bytes: u32, stored: u32, at: u8, w: Write) -> u32
    requires { bytes ≤ 4 }
    ensures { result ≡ latched bytes at w stored }
{
    let mut number: u32 = 0;
    for k in (0..bytes).rev() {
        number = number * 256 + latch_byte(byte(stored, k), at as u32 + k, w) as u32;
    }
    number
}

// Lays the `count` low bytes of `value` into the buffer from `at` on.
pub fn store(buffer: &mut [u8], at: usize, count: usize, value: u32)
    requires { at + count ≤ length buffer.old }
    ensures { buffer.new ≡ sets buffer.old at (le count value) }
{
    let mut rest = value;
    for i in 0..count {
        buffer[at + i] = (rest % 256) as u8;
        rest /= 256;
    }
}

// The number that `count` bytes of the buffer from `at` on are.
pub fn fetch(buffer: &[u8], at: usize, count: usize) -> u32
    requires { (at + count ≤ length buffer.now) × (count ≤ 4) }
    ensures { result ≡ number_of (take count (drop at buffer.now)) }
{
    let mut number: u32 = 0;
    for i in (0..count).rev() {
        number = number * 256 + buffer[at + i] as u32;
    }
    number
}
