// The logical mixes of a drawing, worked once.

ghost use Rattle.mixes.specs.Inner.{Cut};
ghost use Rattle.position.specs.Inner.{InkBlend, InkBlends};

use crate::Blends;
use mixes::Depth;
use mixes::logical::{Blend, blend_of, solid};
use parts::shapes::Ink;
use places::Brush;

// The blend of an ink: of the source pixel where it takes that, and otherwise of its colour.
fn ink_blend(depth: Depth, ink: Ink, takes: bool) -> Blend<u32>
    ensures { Cut depth → InkBlend depth ink takes result }
{
    let blend = blend_of(depth, ink.mix);
    if takes {
        blend
    } else {
        solid(blend, ink.colour)
    }
}

// The blends of foreground and background.
pub fn blends_of(brush: Brush) -> Blends
    ensures { Cut brush.depth → InkBlends brush result }
{
    Blends {
        foreground: ink_blend(brush.depth, brush.colours.foreground, brush.flow.foreground),
        background: ink_blend(brush.depth, brush.colours.background, brush.flow.background),
    }
}
