// The coprocessor's record, and the calls on it.
#![tactic(auto)]

use parts::drawing::Drawing;
use parts::refusals::Refusal;
use parts::shapes::Registers;
use pixels::Map;

mod drawing;
mod fresh;
mod images;
pub mod known;
mod loads;
mod reads;
mod starts;
mod valid;
mod writes;

// The state of one coprocessor: its memory's size, its maps and registers, and the drawing in hand.
#[derive(Clone, Copy)]
pub struct Coprocessor {
    pub size: u32,
    pub maps: [Map; 4],
    pub registers: Registers,
    pub drawing: Drawing,
}

// What a fresh state, a write or a load answers: its outcome, and the record. The record is beside the outcome, since it is given
// with a refusal too: a refused call hands it back (`write_refused`), and a refused fresh state has one byte (`fresh_answer`).
#[derive(Clone, Copy)]
pub struct Written {
    pub outcome: Result<(), Refusal>,
    pub coprocessor: Coprocessor,
}

// What a read answers: its outcome, the value, and the record as it was. The value is beside the outcome, since a refused read
// gives 0 (`read_refused`).
#[derive(Clone, Copy)]
pub struct Found {
    pub outcome: Result<(), Refusal>,
    pub value: u32,
    pub coprocessor: Coprocessor,
}

// What a run answers: its outcome, the positions done, and the record. The positions are beside the outcome, since a refused run
// does 0 (`run_refused`).
#[derive(Clone, Copy)]
pub struct Drawn {
    pub outcome: Result<(), Refusal>,
    pub done: u32,
    pub coprocessor: Coprocessor,
}
