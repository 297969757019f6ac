// What a line asks for.
ghost use Rattle.std.specs.Prelude.{◌≡◌};
ghost use Rattle.std.specs.Option.{unwrap_or};
ghost use Rattle.console.specs.declared.Command.TheVariants.{Neither};
ghost use Rattle.console.specs.Words.{line_words};
ghost use Rattle.console.specs.Commands.{write_from, run_from, command_of};

use crate::digits::number;
use crate::words::Words;
use crate::{Command, Wide};

// A write, if three numbers follow and nothing else.
#[tactic(auto, unfolding(crate::specs::Commands::write_from, crate::specs::Commands::write_of))]
fn write_command(mut args: Words<'_>) -> Option<Command>
    ensures { unwrap_or result Neither ≡ write_from (line_words args.entry.0.now) }
{
    let offset = args.next()?;
    let length = args.next()?;
    let value = args.next()?;
    let None = args.next() else {
        return None;
    };
    Some(Command::Write {
        offset: number(offset, 16, Wide::Largest)?,
        length: number(length, 10, Wide::Largest)?,
        value: number(value, 16, Wide::Low)?,
    })
}

// A run, if one number follows and nothing else.
#[tactic(auto, unfolding(crate::specs::Commands::run_from, crate::specs::Commands::run_of))]
fn run_command(mut args: Words<'_>) -> Option<Command>
    ensures { unwrap_or result Neither ≡ run_from (line_words args.entry.0.now) }
{
    let allowance = args.next()?;
    let None = args.next() else {
        return None;
    };
    Some(Command::Run {
        allowance: number(allowance, 10, Wide::Largest)?,
    })
}

// The command that a line is; a line of blanks asks for nothing, and any other is neither a write nor a run.
#[tactic(auto, unfolding(crate::specs::Commands::command_from, crate::specs::Commands::command_of, crate::specs::Commands::is_letter))]
pub fn command_of(line: &[u8]) -> Command
    ensures { result ≡ command_of line.now }
{
    let mut words = Words(line);
    let Some(name) = words.next() else {
        return Command::Blank;
    };
    let call = match name {
        [b'W' | b'w'] => write_command(words),
        [b'R' | b'r'] => run_command(words),
        _ => None,
    };
    call.unwrap_or(Command::Neither)
}
