// The step codes of a draw and step: a code's parts, and the codes of a write.

ghost use Rattle.std.specs.Prelude.{◌≡◌, ◌-◌};
ghost use Rattle.rules.specs.Codes as defined;

use numbers::bytes::byte;

// The direction: 0 right, 1 up right, then anticlockwise.
pub fn direction_of(code: u8) -> u8
    ensures { result ≡ defined.direction_of code }
{
    code / 32
}

// Whether a code draws nothing.
pub fn only_moves(code: u8) -> bool
    ensures { result ≡ defined.only_moves code }
{
    code / 16 % 2 == 0
}

// The moves of a code, one less than its positions.
pub fn steps_of(code: u8) -> u16
    ensures { result ≡ defined.steps_of code }
{
    code as u16 % 16
}

// Whether a code ends the drawing.
pub fn stops(code: u8) -> bool
    ensures { result ≡ defined.stops code }
{
    code == 0
}

// Whether a write can have started so many codes.
pub(crate) fn is_count(count: u8) -> bool
    ensures { result ≡ defined.is_count count }
{
    matches!(count, 1 | 2 | 4)
}

// How many of the register's four bytes a write of `count` codes leaves out.
fn left_out(count: u8) -> u32
    ensures { result ≡ 4 - count }
{
    4u32.saturating_sub(count as u32)
}

// Code `i` of the `count` codes that started the drawing, 0 past the register's end.
#[tactic(auto, unfolding(crate::specs::Codes::code_at))]
pub fn code_at(steps: u32, count: u8, i: u16) -> u8
    ensures { result ≡ defined.code_at steps count i }
{
    byte(steps, left_out(count) + i as u32)
}

// Whether none of the first `n` codes is 00.
pub(crate) fn none_stopped(steps: u32, count: u8, n: u16) -> bool
    ensures { result ≡ defined.none_stopped steps count n }
{
    (0..n).all(|i| !stops(code_at(steps, count, i)))
}
