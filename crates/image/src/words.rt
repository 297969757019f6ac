// The register bank as it reads back, a word at each multiple of 4; each word is promised by its bytes.

ghost use Rattle.std.specs.Prelude.{◌≡◌, ◌∷◌, [], ◌++◌};
ghost use Rattle.numbers.specs.Bytes.{le};
ghost use Rattle.image.specs.Bank.{bank_of};
ghost use Rattle.image.specs.Inner.{mix_bytes, word_bytes};

use crate::stored::Stored;
use numbers::circles::word;
use parts::shapes::{Colours, Point, Registers};
use pixels::Map;
use rules::maps::map_at;

// Two numbers of two bytes.
#[tactic(auto, unfolding(numbers::specs::Bytes::le))]
fn point_word<T: Stored>(point: Point<T>) -> u32
    requires { T.BYTES ≡ 2 }
    ensures { le 4 result ≡ le 2 (T.stored point.x) ++ le 2 (T.stored point.y) }
{
    point.x.to_word() + 65536 * point.y.to_word()
}

// Offset 10 hex: the map index in its third byte.
#[tactic(auto, unfolding(numbers::specs::Bytes::le))]
fn index_word(index: u8) -> u32
    ensures { le 4 result ≡ 0 ∷ 0 ∷ le 1 index ++ 0 ∷ [] }
{
    65536 * index as u32
}

// Offset 18 hex: a map's width and height.
fn size_word(map: Map) -> u32
    ensures { le 4 result ≡ le 2 map.width ++ le 2 map.height }
{
    point_word(Point {
        x: map.width,
        y: map.height,
    })
}

// Offset 1C hex: a map's format.
#[tactic(auto, unfolding(numbers::specs::Bytes::le))]
fn format_word(map: Map) -> u32
    ensures { le 4 result ≡ le 1 map.format ++ 0 ∷ 0 ∷ 0 ∷ [] }
{
    map.format as u32
}

// Offset 48 hex: the two mixes and the condition.
#[tactic(auto, unfolding(numbers::specs::Bytes::le, crate::specs::Inner::mix_bytes))]
fn mixes_word(colours: Colours) -> u32
    ensures { le 4 result ≡ mix_bytes colours ++ 0 ∷ [] }
{
    colours.foreground.mix as u32
        + 256 * colours.background.mix as u32
        + 65536 * colours.compare.condition as u32
}

// The bank of these registers; it is 0 where no register is listed.
pub fn bank(maps: [Map; 4], registers: Registers) -> [u32; 32]
    ensures { word_bytes result ≡ bank_of maps registers }
{
    let map = map_at(maps, registers.index as u32);
    [
        0,
        0,
        0,
        0,
        index_word(registers.index),
        map.base,
        size_word(map),
        format_word(map),
        word(registers.terms.e),
        word(registers.terms.k1),
        word(registers.terms.k2),
        registers.figure.steps,
        0,
        0,
        0,
        0,
        0,
        0,
        mixes_word(registers.colours),
        registers.colours.compare.value,
        registers.colours.planes,
        registers.colours.carries,
        registers.colours.foreground.colour,
        registers.colours.background.colour,
        point_word(registers.figure.dimensions),
        0,
        0,
        point_word(registers.figure.origin),
        point_word(registers.pointers.source),
        point_word(registers.pointers.pattern),
        point_word(registers.pointers.destination),
        registers.figure.operations,
    ]
}
