ghost use Rattle.std.specs.Prelude.{◌≡◌, Bool, not, ◌||◌, eqb};
ghost use Rattle.pixels.specs.declared.Map.{Map};
ghost use Rattle.pixels.specs.Maps.{bits_of};
ghost use Rattle.rules.specs.Operations.{source_field, destination_field, source_is_colour};
ghost use Rattle.rules.specs.Maps.{map_at, format_holds};
ghost use Rattle.rules.specs.Rules.{is_source, is_pattern, fill_holds, fields_hold, mixes_hold, used_maps, formats_hold, ends_hold, start_refusal};

use crate::maps::{end_holds, format_holds, is_one_bit, map_at};
use crate::operations::{
    background_source, destination_field, foreground_source, is_fill, is_map, mask_mode, octant_of,
    pattern_field, source_field, source_is_colour, uses_mask, uses_pattern, uses_source,
};
use parts::refusals::Refusal;
use parts::shapes::{Colours, Registers};
use pixels::Map;

// Whether a source field is 00 or 10.
#[tactic(auto, unfolding(crate::specs::Rules::is_source))]
fn is_source(field: u32) -> bool
    ensures { result ≡ is_source field }
{
    matches!(field, 0 | 2)
}

// Whether the pattern's field is one that has a meaning.
#[tactic(auto, unfolding(crate::specs::Rules::is_pattern))]
fn is_pattern(field: u32) -> bool
    ensures { result ≡ is_pattern field }
{
    is_map(field) | matches!(field, 8 | 9)
}

// Whether an area fill has a pattern map, and does not go to the left.
#[tactic(auto, unfolding(crate::specs::Rules::fill_holds))]
fn fill_holds(operations: u32) -> bool
    ensures { result ≡ fill_holds operations }
{
    uses_pattern(operations) & (octant_of(operations) / 4 % 2 == 0)
}

// Whether refusal 5 does not apply.
#[tactic(auto, unfolding(crate::specs::Rules::fields_hold))]
fn fields_hold(operations: u32) -> bool
    ensures { result ≡ fields_hold operations }
{
    is_source(foreground_source(operations))
        & is_source(background_source(operations))
        & is_map(destination_field(operations))
        & is_pattern(pattern_field(operations))
        & (mask_mode(operations) != 3)
        & (!uses_source(operations) | is_map(source_field(operations)))
        & (!is_fill(operations) | fill_holds(operations))
}

// Whether refusal 6 does not apply.
#[tactic(auto, unfolding(crate::specs::Rules::mixes_hold))]
fn mixes_hold(colours: Colours) -> bool
    ensures { result ≡ mixes_hold colours }
{
    (colours.foreground.mix <= 0x15) & (colours.background.mix <= 0x15)
}

// Whether every used map passes a test.
#[tactic(auto, unfolding(crate::specs::Rules::used_maps))]
fn used_maps_hold<F: Fn(Map) -> bool>(operations: u32, maps: [Map; 4], holds: F) -> bool
    requires { F.IsAlwaysCallable holds }
    ensures { (test : Map → Bool) → ((m : Map) (r : Bool) → F.post holds m r → r ≡ test m) → result ≡ used_maps test operations maps }
{
    holds(map_at(maps, destination_field(operations)))
        & (!uses_source(operations) | holds(map_at(maps, source_field(operations))))
        & (!uses_pattern(operations) | holds(map_at(maps, pattern_field(operations))))
        & (!uses_mask(operations) | holds(map_at(maps, 0)))
}

// Whether a source used for a colour has the destination's pixel size.
fn sizes_agree(operations: u32, maps: [Map; 4]) -> bool
    ensures { result ≡ (not (source_is_colour operations)
        || eqb (bits_of (map_at maps (source_field operations)).format) (bits_of (map_at maps (destination_field operations)).format)) }
{
    let source = map_at(maps, source_field(operations));
    let destination = map_at(maps, destination_field(operations));
    !source_is_colour(operations)
        | (pixels::bits_of(source.format) == pixels::bits_of(destination.format))
}

// Whether refusal 7 does not apply.
#[tactic(auto, unfolding(crate::specs::Rules::formats_hold))]
fn formats_hold(operations: u32, maps: [Map; 4]) -> bool
    ensures { result ≡ formats_hold operations maps }
{
    used_maps_hold(operations, maps, format_holds)
        & sizes_agree(operations, maps)
        & (!uses_pattern(operations) | is_one_bit(map_at(maps, pattern_field(operations))))
        & (!uses_mask(operations) | is_one_bit(map_at(maps, 0)))
}

// Whether refusal 8 does not apply.
#[tactic(auto, unfolding(crate::specs::Rules::ends_hold))]
fn ends_hold(operations: u32, maps: [Map; 4], size: u32) -> bool
    ensures { result ≡ ends_hold operations maps size }
{
    used_maps_hold(operations, maps, |map| end_holds(size, map))
}

// The lowest of refusals 5 to 8 that applies to a start on these registers.
#[tactic(auto, unfolding(crate::specs::Rules::start_refusal))]
pub fn start_refusal(size: u32, maps: [Map; 4], registers: Registers) -> Result<(), Refusal>
    ensures { result ≡ start_refusal size maps registers }
{
    let operations = registers.figure.operations;
    if !fields_hold(operations) {
        return Err(Refusal::Fields);
    }
    if !mixes_hold(registers.colours) {
        return Err(Refusal::Mixes);
    }
    if !formats_hold(operations, maps) {
        return Err(Refusal::Formats);
    }
    if !ends_hold(operations, maps, size) {
        return Err(Refusal::Ends);
    }
    Ok(())
}
