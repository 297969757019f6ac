// A position is look, judge, write.

ghost use Rattle.std.specs.Prelude.{◌≡◌, true, length};
ghost use Rattle.mixes.specs.Inner.{Cut};
ghost use Rattle.position.specs.Drawn.{inside_at, drawn};
ghost use Rattle.position.specs.Within.{Within};
ghost use Rattle.position.specs.Inner.{InkBlends};

use crate::judge::judge;
use crate::look::look;
use crate::write::write;
use crate::{Blends, Fate};
use moves::Pen;
use places::Setup;

// Draws one position, all of whose pixels lie in the memory: the mix where it is painted, and nothing otherwise. It answers whether
// a fill is inside there, painted or not.
pub fn draw(setup: Setup, blends: Blends, memory: &mut [u8], pen: Pen) -> bool
    requires { (setup.brush.flow.fills ≡ true → setup.travel.pattern.used ≡ true)
        × Cut setup.brush.depth
        × InkBlends setup.brush blends
        × Within setup (length memory.old) pen }
    ensures { (result ≡ inside_at setup memory.old pen) × (memory.new ≡ drawn setup memory.old pen) }
{
    let sight = look(setup, memory, pen);
    if let Ok(target) = sight.target
        && judge(setup, target) == Fate::Painted
    {
        write(setup, blends, memory, sight.pattern, target);
    }
    sight.pattern.inside
}
