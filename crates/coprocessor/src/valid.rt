ghost use Rattle.std.specs.Prelude.{◌≡◌};
ghost use Rattle.coprocessor.specs.Valid.{start_refusal_of, maps_reduced, reduced_of, goes_on, valid_of};

use crate::Coprocessor;
use crate::fresh::size_holds;
use parts::drawing::is_unfinished;
use parts::reduced::{map_is_reduced, registers_are_reduced};
use parts::refusals::Refusal;
use pixels::Map;
use rules::going::{counters_hold, pointers_hold};
use rules::rules::start_refusal;

// Whether all four maps are reduced.
#[tactic(auto, unfolding(crate::specs::Valid::maps_reduced, rules::specs::Maps::map_at))]
fn maps_are_reduced(maps: [Map; 4]) -> bool
    ensures { result ≡ maps_reduced maps }
{
    let [mask, a, b, c] = maps;
    map_is_reduced(mask) & map_is_reduced(a) & map_is_reduced(b) & map_is_reduced(c)
}

impl Coprocessor {
    // Refusals 5 to 8 of the registers as they are.
    #[tactic(auto, unfolding(crate::specs::Valid::start_refusal_of))]
    pub(crate) fn start_refusal(self) -> Result<(), Refusal>
        ensures { result ≡ start_refusal_of self }
    {
        start_refusal(self.size, self.maps, self.registers)
    }

    // Whether every reduction holds.
    #[tactic(auto, unfolding(crate::specs::Valid::reduced_of))]
    fn is_reduced(self) -> bool
        ensures { result ≡ reduced_of self }
    {
        maps_are_reduced(self.maps) & registers_are_reduced(self.registers)
    }

    // Whether the drawing in hand, if there is one, can go on.
    #[tactic(auto, unfolding(crate::specs::Valid::goes_on))]
    fn goes_on(self) -> bool
        ensures { result ≡ goes_on self }
    {
        let drawing = self.drawing;
        if !is_unfinished(drawing) {
            return true;
        }
        let figure = self.registers.figure;
        counters_hold(figure, drawing)
            & self.start_refusal().is_ok()
            & pointers_hold(figure.operations, self.maps, self.registers.pointers)
    }

    // Whether the record is the one that its own image loads to.
    #[tactic(auto, unfolding(crate::specs::Valid::valid_of))]
    pub(crate) fn is_valid(self) -> bool
        ensures { result ≡ valid_of self }
    {
        size_holds(self.size) & self.is_reduced() & self.goes_on()
    }
}
