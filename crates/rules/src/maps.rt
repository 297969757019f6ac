ghost use Rattle.std.specs.Prelude.{◌≡◌};
ghost use Rattle.rules.specs.Maps.{map_at, format_holds, is_one_bit, end_holds, is_inside};

use parts::shapes::Point;
use pixels::Map;

// The map that a field of the pixel operations names: 0 for M, 1 for A, 2 for B, 3 for C.
#[tactic(auto, unfolding(crate::specs::Maps::map_at))]
pub fn map_at(maps: [Map; 4], field: u32) -> Map
    ensures { result ≡ map_at maps field }
{
    maps[(field % 4) as usize]
}

// Whether the format is one of the four pixel sizes.
#[tactic(auto, unfolding(crate::specs::Maps::format_holds))]
pub(crate) fn format_holds(map: Map) -> bool
    ensures { result ≡ format_holds map }
{
    map.format % 8 < 4
}

// Whether the map's pixels have one bit.
#[tactic(auto, unfolding(crate::specs::Maps::is_one_bit))]
pub(crate) fn is_one_bit(map: Map) -> bool
    ensures { result ≡ is_one_bit map }
{
    pixels::bits_of(map.format) == 1
}

// Whether the map ends within a memory of `size` bytes.
#[tactic(auto, using(crate::proofs::MapLaws::needed_le), unfolding(crate::specs::Maps::end_holds))]
pub(crate) fn end_holds(size: u32, map: Map) -> bool
    ensures { result ≡ end_holds size map }
{
    map.base as u64 + pixels::needed(map) <= size as u64
}

// Whether the pointer lies in the map.
#[tactic(auto, unfolding(crate::specs::Maps::is_inside))]
pub fn is_inside(map: Map, p: Point<u16>) -> bool
    ensures { result ≡ is_inside map p }
{
    (p.x <= map.width) & (p.y <= map.height)
}
