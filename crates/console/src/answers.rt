// What comes of a command on the bench's record and memory.
ghost use Rattle.std.specs.Prelude.{◌≡◌};
ghost use Rattle.coprocessor.specs.Runs.{run_memory};
ghost use Rattle.console.specs.Answers.{outcome_of, write_told, run_told, told_of, memory_after};

use crate::{Answer, Command};
use coprocessor::Coprocessor;
use entry::write_own;
use parts::refusals::Refusal;

// A command's answer, and the record after it.
#[derive(Clone, Copy)]
pub struct Told {
    pub answer: Answer,
    pub coprocessor: Coprocessor,
}

// The positions done, or the refusal's number; a text is written of any number.
#[tactic(auto, unfolding(crate::specs::Answers::outcome_of))]
fn outcome_of(outcome: Result<(), Refusal>, positions: u32) -> Answer
    ensures { result ≡ outcome_of outcome positions }
{
    match outcome {
        Ok(()) => Answer::Done { positions },
        Err(refusal) => Answer::Refused {
            number: refusal as u32,
        },
    }
}

// A write, through the entry in the caller's storage; it does no position.
#[tactic(auto, unfolding(crate::specs::Answers::write_told))]
fn obey_write(board: Coprocessor, offset: u32, length: u32, value: u32) -> Told
    ensures { result ≡ write_told offset length value board }
{
    let written = write_own(board, offset, length, value);
    Told {
        answer: outcome_of(written.outcome, 0),
        coprocessor: written.coprocessor,
    }
}

// A run over the memory.
#[tactic(auto, unfolding(crate::specs::Answers::run_told))]
fn obey_run(board: Coprocessor, memory: &mut [u8], allowance: u32) -> Told
    ensures { (result ≡ run_told allowance board memory.old) × (memory.new ≡ run_memory board memory.old allowance) }
{
    let drawn = board.run(memory, allowance);
    Told {
        answer: outcome_of(drawn.outcome, drawn.done),
        coprocessor: drawn.coprocessor,
    }
}

// Does what the command asks for on the record and the memory; a line that is blank, or neither a write nor a run, changes
// nothing.
#[tactic(auto, unfolding(crate::specs::Answers::told_of, crate::specs::Answers::memory_after))]
pub fn obey(command: Command, board: Coprocessor, memory: &mut [u8]) -> Told
    ensures { (result ≡ told_of command board memory.old) × (memory.new ≡ memory_after command board memory.old) }
{
    match command {
        Command::Write {
            offset,
            length,
            value,
        } => obey_write(board, offset, length, value),
        Command::Run { allowance } => obey_run(board, memory, allowance),
        Command::Blank => Told {
            answer: Answer::Nothing,
            coprocessor: board,
        },
        Command::Neither => Told {
            answer: Answer::Neither,
            coprocessor: board,
        },
    }
}
