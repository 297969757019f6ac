ghost use Rattle.std.specs.Prelude.{◌≡◌, ◌≤◌};
ghost use Rattle.moves.specs.Turns as defined;

use crate::Turn;
use numbers::circles::{
    destination_back, destination_forth, step_back, step_forth, steps_back, steps_forth,
};

impl Turn {
    // The other way.
    pub(crate) fn opposite(self) -> Turn
        ensures { result ≡ defined.opposite self }
    {
        match self {
            Turn::Stay => Turn::Stay,
            Turn::Forth => Turn::Back,
            Turn::Back => Turn::Forth,
        }
    }

    // `count` steps of a pointer in a map that ends at `last`; it divides only where several of them leave the map.
    #[inline(always)]
    pub(crate) fn by(self, count: u16, last: u16, x: u16) -> u16
        requires { x ≤ last }
        ensures { result ≡ defined.turned_by self count last x }
    {
        match self {
            Turn::Stay => x,
            Turn::Forth if count == 1 => step_forth(x, last),
            Turn::Forth if x as u32 + count as u32 <= last as u32 => x + count,
            Turn::Forth => steps_forth(x, last, count),
            Turn::Back if count == 1 => step_back(x, last),
            Turn::Back if count <= x => x - count,
            Turn::Back => steps_back(x, last, count),
        }
    }

    // `count` steps of a destination pointer.
    pub(crate) fn circled(self, count: u16, z: i16) -> i16
        ensures { result ≡ defined.circled_by self count z }
    {
        match self {
            Turn::Stay => z,
            Turn::Forth => destination_forth(z, count),
            Turn::Back => destination_back(z, count),
        }
    }
}
