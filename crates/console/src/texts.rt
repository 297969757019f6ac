// Answers and memory as text, laid into buffers that always have room: a Formatter may answer an error, which no promise here
// has a place for.
ghost use Rattle.std.specs.Prelude.{◌≡◌, ◌+◌, ◌≤◌, ◌<◌, length};
ghost use Rattle.std.proofs.lemmas.List.Edits.{sets};
ghost use Rattle.console.specs.Texts.{numbered, answer_text, Counted, hex_digit, separator_of, byte_text, memory_text};

use crate::Answer;
use itoa::Buffer;

// Copies the text to this place, and answers the place after it.
pub fn put(out: &mut [u8], at: usize, text: &[u8]) -> usize
    requires { at + length text.now ≤ length out.old }
    ensures { (result ≡ at + length text.now) × (out.new ≡ sets out.old at text.now) }
{
    let end = at + text.len();
    out[at..end].copy_from_slice(text);
    end
}

// Writes a word, a number and what follows it, and answers how many bytes they are.
fn put_numbered(out: &mut [u8], before: &[u8], n: u64, after: &[u8]) -> usize
    requires { length before.now + 20 + length after.now ≤ length out.old }
    ensures value { (result ≡ length (numbered before.now n after.now))
        × (out.new ≡ sets out.old 0 (numbered before.now n after.now)) }
    ensures counted { Counted result out.new }
{
    let first = put(out, 0, before);
    let second = put(out, first, Buffer::new().format(n).as_bytes());
    put(out, second, after)
}

// Writes an answer to the buffer's start, for a line of this number, and answers how many bytes it has; a line of blanks
// has none.
#[tactic(auto, unfolding(crate::specs::Texts::answer_text))]
pub fn answer_text(answer: Answer, line: u64, out: &mut [u8; 40]) -> usize
    ensures value { (result ≡ length (answer_text answer line)) × (out.new ≡ sets out.old 0 (answer_text answer line)) }
    ensures counted { Counted result out.new }
{
    match answer {
        Answer::Done { positions } => put_numbered(out, b"ok ", u64::from(positions), b"\n"),
        Answer::Refused { number } => put_numbered(out, b"no ", u64::from(number), b"\n"),
        Answer::Nothing => 0,
        Answer::Neither => put_numbered(out, b"line ", line, b": not a call\n"),
    }
}

// A digit in hex, in upper case.
#[tactic(auto, unfolding(crate::specs::Texts::hex_digit))]
fn hex_digit(digit: u8) -> u8
    requires { digit < 16 }
    ensures { result ≡ hex_digit digit }
{
    if digit < 10 { 48 + digit } else { 55 + digit }
}

// What follows the byte of this number: a newline after each sixteenth, a blank after any other.
#[tactic(auto, unfolding(crate::specs::Texts::separator_of))]
fn separator(i: usize) -> u8
    ensures { result ≡ separator_of i }
{
    if i % 16 == 15 { b'\n' } else { b' ' }
}

// The byte of this number, with what follows it.
#[tactic(auto, unfolding(crate::specs::Texts::byte_text))]
fn byte_text(i: usize, byte: u8) -> [u8; 3]
    ensures { result ≡ byte_text i byte }
{
    [hex_digit(byte / 16), hex_digit(byte % 16), separator(i)]
}

// Writes the memory as four lines of sixteen bytes in hex.
pub fn memory_text(memory: &[u8; 64], out: &mut [u8; 192])
    ensures out_after { out.new ≡ memory_text memory.now }
    ensures value { 192 ≡ length out.new }
{
    for (i, &byte) in memory.iter().enumerate() {
        put(out, 3 * i, &byte_text(i, byte));
    }
}
