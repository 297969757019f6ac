// What a painted position writes, from what it found.

ghost use Rattle.std.specs.Prelude.{◌≡◌, true, List, ℕ, ◌+◌, ◌≤◌, ◌<◌, length};
ghost use Rattle.numbers.specs.Choose.{choose};
ghost use Rattle.mixes.specs.Inner.{Cut};
ghost use Rattle.moves.specs.declared.Pen.{Pen};
ghost use Rattle.position.specs.Fates.{fate_of};
ghost use Rattle.position.specs.Drawn.{is_foreground, mixed_pixel, drawn};
ghost use Rattle.position.specs.Inner.{is_painted, pattern_read, source_read, Aimed, InkBlends};

use crate::{Blends, Pattern, Target};
use mixes::logical::blend_pixels;
use mixes::mix;
use pixels::store;
use places::Setup;

// Whether the pattern is 1: its map's pixel, in a fill where that is inside, the source pixel where it is derived, and otherwise always.
fn is_foreground(setup: Setup, pattern: Pattern, source: u32) -> bool
    ensures { (memory : List ℕ) (pen : Pen) → pattern ≡ pattern_read setup memory pen → source ≡ source_read setup memory pen
        → result ≡ is_foreground setup memory pen }
{
    if setup.travel.pattern.used {
        return pattern.one;
    }
    if setup.brush.flow.derived {
        return source != 0;
    }
    true
}

// Of foreground and background the one that the pattern picks; and so of any two that a test tells apart.
fn pick<T: Drop>(first: bool, a: T, b: T) -> T
    ensures { result ≡ choose first a b }
{
    if first { a } else { b }
}

// The destination pixel after the mix, under the plane mask; a logical mix was worked before.
fn mixed_pixel(setup: Setup, blends: Blends, pattern: Pattern, target: Target) -> u32
    requires { Cut setup.brush.depth × InkBlends setup.brush blends }
    ensures { (memory : List ℕ) (pen : Pen) → pattern ≡ pattern_read setup memory pen → Aimed setup memory pen target
        → result ≡ mixed_pixel setup memory pen }
{
    let foreground = is_foreground(setup, pattern, target.source);
    let ink = pick(
        foreground,
        setup.brush.colours.foreground,
        setup.brush.colours.background,
    );
    if ink.mix < 16 {
        return blend_pixels(
            setup.brush.depth,
            pick(foreground, blends.foreground, blends.background),
            target.source,
            target.pixel,
        );
    }
    let takes = pick(
        foreground,
        setup.brush.flow.foreground,
        setup.brush.flow.background,
    );
    mix(
        setup.brush.depth,
        ink.mix,
        pick(takes, target.source, ink.colour),
        target.pixel,
    )
}

// Stores the mix in the destination's cell, which lies in the memory.
pub(crate) fn write(
    setup: Setup,
    blends: Blends,
    memory: &mut [u8],
    pattern: Pattern,
    target: Target,
)
    requires { Cut setup.brush.depth
        × InkBlends setup.brush blends
        × (target.cell.shift + target.cell.bits ≤ 8) × (target.cell.at < length memory.old) }
    ensures { (pen : Pen) → pattern ≡ pattern_read setup memory.old pen → Aimed setup memory.old pen target
        → is_painted (fate_of setup memory.old pen) ≡ true → memory.new ≡ drawn setup memory.old pen }
{
    store(
        memory,
        target.cell,
        mixed_pixel(setup, blends, pattern, target),
    );
}
