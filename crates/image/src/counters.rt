ghost use Rattle.std.specs.Prelude.{◌≡◌};
ghost use Rattle.image.specs.Counters.{counters_of, drawing_of};

use parts::drawing::Drawing;
use rules::operations::{is_codes, is_line};

// The drawing in hand, as the image has it: state, positions done in this row, line or code, rows or codes done, and codes in
// the starting write. The state is the image's own byte and no kind, since an image may have any byte there, and is then refused.
#[derive(Clone, Copy, Default, PartialEq, Eq)]
pub struct Counters {
    pub state: u8,
    pub done: u16,
    pub passed: u16,
    pub count: u8,
}

// State 0 is idle, 1 drawing, 2 idle after a stop, 3 drawing with its bit set (a fill inside, a line that rose); counters not of the function are zero.
#[tactic(auto, unfolding(crate::specs::Counters::counters_of))]
pub fn counters_of(drawing: Drawing) -> Counters
    ensures { result ≡ counters_of drawing }
{
    match drawing {
        Drawing::Nothing { stopped } => Counters {
            state: if stopped { 2 } else { 0 },
            ..Counters::default()
        },
        Drawing::Line { done, rose } => Counters {
            state: if rose { 3 } else { 1 },
            done,
            ..Counters::default()
        },
        Drawing::Codes { count, code, done } => Counters {
            state: 1,
            done,
            passed: code,
            count,
        },
        Drawing::Block {
            column,
            row,
            inside,
        } => Counters {
            state: if inside { 3 } else { 1 },
            done: column,
            passed: row,
            ..Counters::default()
        },
    }
}

// The drawing that the counters are, by the stored function.
#[tactic(auto, unfolding(crate::specs::Counters::drawing_of))]
pub fn drawing_of(operations: u32, k: Counters) -> Drawing
    ensures { result ≡ drawing_of operations k }
{
    match k.state {
        0 => Drawing::Nothing { stopped: false },
        2 => Drawing::Nothing { stopped: true },
        _ if is_line(operations) => Drawing::Line {
            done: k.done,
            rose: k.state == 3,
        },
        _ if is_codes(operations) => Drawing::Codes {
            count: k.count,
            code: k.passed,
            done: k.done,
        },
        _ => Drawing::Block {
            column: k.done,
            row: k.passed,
            inside: k.state == 3,
        },
    }
}
