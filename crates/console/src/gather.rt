// A line gathered byte by byte.
ghost use Rattle.std.specs.Prelude.{◌≡◌, length, set};
ghost use Rattle.console.specs.Gathered.{count_after, command_in};

use crate::Command;
use crate::commands::command_of;

// The bytes of a line so far, and how many they are; one more than fit stands for any number that does not fit.
#[derive(Drop)]
pub struct Line<const N: usize> {
    pub bytes: [u8; N],
    pub count: usize,
}

impl<const N: usize> Line<N> {
    // Puts one more byte after those that came.
    pub fn gather(&mut self, byte: u8)
        ensures count { self.new.count ≡ count_after (length self.old.bytes) self.old.count }
        ensures bytes { self.new.bytes ≡ set self.old.bytes self.old.count byte }
    {
        self.count = gather(&mut self.bytes, self.count, byte);
    }

    // The command that the line is; a line that did not fit is neither.
    pub fn command(&self) -> Command
        ensures { result ≡ command_in self.now.bytes self.now.count }
    {
        command_in(&self.bytes, self.count)
    }
}

// Puts one more byte of the line after the `count` bytes in the buffer, and answers the new count; a byte that does not
// fit is dropped, and the line counts as too long from then on. `gather` and `command_in` are promised for a buffer of any length,
// so they do not ask for a `Line`, whose length the compiler knows.
#[tactic(auto, unfolding(crate::specs::Gathered::count_after))]
pub fn gather(buffer: &mut [u8], count: usize, byte: u8) -> usize
    ensures { (result ≡ count_after (length buffer.old) count) × (buffer.new ≡ set buffer.old count byte) }
{
    if count < buffer.len() {
        buffer[count] = byte;
        count + 1
    } else {
        buffer.len() + 1
    }
}

// The command that the `count` bytes in the buffer are; a line that did not fit is neither.
#[tactic(auto, unfolding(crate::specs::Gathered::command_in))]
pub fn command_in(buffer: &[u8], count: usize) -> Command
    ensures { result ≡ command_in buffer.now count }
{
    if count <= buffer.len() {
        command_of(&buffer[..count])
    } else {
        Command::Neither
    }
}
