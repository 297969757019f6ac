// The bench between two bytes of its input, and what they make of it: a command is done where its line ends, and its answer waits in
// a buffer until it is handed on.
ghost use Rattle.std.specs.Prelude.{◌≡◌, ◌++◌, ◌+◌, ◌*◌, ◌≤◌, length, take};
ghost use Rattle.console.specs.Texts.{answer_text, memory_text};
ghost use Rattle.bench.specs.Printed.{line_after};
ghost use Rattle.bench.specs.Inner.{first_session, session_of, with_text, line_ended, byte_taken, bytes_taken, last_ended, input_ended};

use crate::text::Text;
use console::Answer;
use console::answers::obey;
use console::gather::Line;
use console::texts::{answer_text, memory_text};
use coprocessor::Coprocessor;

// The record, its memory, the line under way, that line's number, and the text that waits.
#[derive(Drop)]
pub(crate) struct Bench {
    board: Coprocessor,
    memory: [u8; 64],
    line: Line<256>,
    number: u64,
    pub(crate) text: Text,
}

// The number after this one; the last that fits stays.
#[tactic(auto, unfolding(crate::specs::Printed::line_after))]
fn next_line(line: u64) -> u64
    ensures { result ≡ line_after line }
{
    line.saturating_add(1)
}

impl Bench {
    // A fresh state over 64 zero bytes, before line 1.
    #[tactic(auto, unfolding(crate::specs::Inner::session_of, crate::specs::Inner::first_session))]
    pub(crate) fn fresh() -> Self
        ensures session { session_of result ≡ first_session }
        ensures none { result.text.laid ≡ 0 }
    {
        Bench {
            board: Coprocessor::fresh(64).coprocessor,
            memory: [0; 64],
            line: Line {
                bytes: [0; 256],
                count: 0,
            },
            number: 1,
            text: Text::empty(),
        }
    }

    // Lays the answer to the line under way after the text that waits.
    fn lay_answer(&mut self, answer: Answer)
        requires { self.old.text.laid + 40 ≤ 65536 }
        ensures session { session_of self.new
            ≡ with_text ((session_of self.old).text ++ answer_text answer self.old.number) (session_of self.old) }
        ensures room { self.new.text.laid ≤ self.old.text.laid + 40 }
    {
        let mut text = [0; 40];
        let n = answer_text(answer, self.number, &mut text);
        self.text.lay(&text[..n]);
    }

    // Lays the memory after the text that waits.
    #[tactic(auto, unfolding(crate::specs::Inner::session_of, crate::specs::Inner::with_text))]
    fn lay_memory(&mut self)
        requires { self.old.text.laid + 192 ≤ 65536 }
        ensures { session_of self.new
            ≡ with_text ((session_of self.old).text ++ memory_text (session_of self.old).memory) (session_of self.old) }
    {
        let mut text = [0; 192];
        memory_text(&self.memory, &mut text);
        self.text.lay(&text);
    }

    // Does the line in the buffer, lays its answer after the text that waits, and begins the next line.
    fn end_line(&mut self)
        requires { self.old.text.laid + 40 ≤ 65536 }
        ensures session { session_of self.new ≡ line_ended (session_of self.old) }
        ensures room { self.new.text.laid ≤ self.old.text.laid + 40 }
    {
        let command = self.line.command();
        let told = obey(command, self.board, &mut self.memory);
        self.board = told.coprocessor;
        self.lay_answer(told.answer);
        self.line.count = 0;
        self.number = next_line(self.number);
    }

    // Takes one byte of the input.
    #[tactic(auto, unfolding(crate::specs::Inner::session_of, crate::specs::Inner::byte_gathered, crate::specs::Inner::byte_taken))]
    fn hear_byte(&mut self, byte: u8)
        requires { self.old.text.laid + 40 ≤ 65536 }
        ensures session { session_of self.new ≡ byte_taken byte (session_of self.old) }
        ensures room { self.new.text.laid ≤ self.old.text.laid + 40 }
    {
        if byte == b'\n' {
            self.end_line();
        } else {
            self.line.gather(byte);
        }
    }

    // Takes a piece of the input byte by byte.
    pub(crate) fn take_piece(&mut self, piece: &[u8])
        requires { self.old.text.laid + 40 * length piece.now ≤ 65536 }
        ensures { session_of self.new ≡ bytes_taken piece.now (session_of self.old) }
    {
        for &byte in piece {
            self.hear_byte(byte);
        }
    }

    // Does the last line, if it has any byte.
    #[tactic(auto, unfolding(crate::specs::Inner::session_of, crate::specs::Inner::last_ended))]
    fn end_last(&mut self)
        requires { self.old.text.laid + 40 ≤ 65536 }
        ensures session { session_of self.new ≡ last_ended (session_of self.old) }
        ensures room { self.new.text.laid ≤ self.old.text.laid + 40 }
    {
        if 0 < self.line.count {
            self.end_line();
        }
    }

    // At the input's end does the last line, and shows the memory.
    #[tactic(auto, unfolding(crate::specs::Inner::session_of, crate::specs::Inner::input_ended))]
    pub(crate) fn end_input(&mut self)
        requires { self.old.text.laid + 232 ≤ 65536 }
        ensures { session_of self.new ≡ input_ended (session_of self.old) }
    {
        self.end_last();
        self.lay_memory();
    }
}
