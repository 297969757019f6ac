ghost use Rattle.std.specs.Prelude.{◌≡◌};
ghost use Rattle.parts.specs.Refusals.{refusal_number};

// What a call may refuse, by the paper's number.
#[derive(Clone, Copy, PartialEq, Eq)]
pub enum Refusal {
    Place = 1,
    Unfinished = 2,
    Unlisted = 3,
    Function = 4,
    Fields = 5,
    Mixes = 6,
    Formats = 7,
    Ends = 8,
    Size = 9,
    Image = 10,
}

// The number that a call answers with, 0 where it is accepted.
pub fn number(outcome: Result<(), Refusal>) -> u32
    ensures { result ≡ refusal_number outcome }
{
    match outcome {
        Ok(()) => 0,
        Err(refusal) => refusal as u32,
    }
}
