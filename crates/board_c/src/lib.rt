// The calls for C: each export calls the function of `board` that has its name, and has that function's promise.
#![tactic(auto)]

ghost use Rattle.std.specs.Prelude.{◌≡◌};
ghost use Rattle.board.specs.Calls.{fresh_number, fresh_image, write_number, write_image, read_number, run_number, run_image, run_bytes, load_number};

// Makes the image that of a fresh state over a memory of this size: 0; 9 for a size outside the limit, with the image of a
// fresh state of size 1; or 10 for a buffer not of 115 bytes. Such a buffer always stays as it is.
#[unsafe(no_mangle)]
pub extern "C" fn xga_fresh(image: &mut [u8], size: u32) -> u32
    ensures { (result ≡ fresh_number image.old size) × (image.new ≡ fresh_image image.old size) }
{
    board::xga_fresh(image, size)
}

// Writes the low bytes of `value` from `offset` on: 0, or the refusal, which leaves the image as it was.
#[unsafe(no_mangle)]
pub extern "C" fn xga_write(image: &mut [u8], offset: u32, length: u32, value: u32) -> u32
    ensures { (result ≡ write_number image.old (record { offset = offset; length = length; value = value }))
        × (image.new ≡ write_image image.old (record { offset = offset; length = length; value = value })) }
{
    board::xga_write(image, offset, length, value)
}

// Reads `length` bytes from `offset` on: the refusal times 2 to the 32, plus the value.
#[unsafe(no_mangle)]
pub extern "C" fn xga_read(image: &[u8], offset: u32, length: u32) -> u64
    ensures { result ≡ read_number image.now offset length }
{
    board::xga_read(image, offset, length)
}

// Does at most `allowance` positions of the drawing in hand: the refusal times 2 to the 32, plus the positions done.
#[unsafe(no_mangle)]
pub extern "C" fn xga_run(image: &mut [u8], memory: &mut [u8], allowance: u32) -> u64
    ensures { (result ≡ run_number image.old memory.old allowance)
        × (image.new ≡ run_image image.old memory.old allowance)
        × (memory.new ≡ run_bytes image.old memory.old allowance) }
{
    board::xga_run(image, memory, allowance)
}

// 0 where the image would load, otherwise 10.
#[unsafe(no_mangle)]
pub extern "C" fn xga_load(image: &[u8]) -> u32
    ensures { result ≡ load_number image.now }
{
    board::xga_load(image)
}
