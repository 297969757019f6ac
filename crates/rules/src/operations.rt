ghost use Rattle.std.specs.Prelude.{◌≡◌};
ghost use Rattle.rules.specs.Operations as defined;

// The fields of the pixel operations register.

// Bits 31-30: 0 for the background colour, 2 for the source map.
pub fn background_source(operations: u32) -> u32
    ensures { result ≡ defined.background_source operations }
{
    (operations >> 30) % 4
}

// Bits 29-28: 0 for the foreground colour, 2 for the source map.
pub fn foreground_source(operations: u32) -> u32
    ensures { result ≡ defined.foreground_source operations }
{
    (operations >> 28) % 4
}

// Bits 27-24: the function.
// It stays the field's own number, which 01 names the functions by: an enum would be decoded by the very tests that ask it below.
pub fn function_of(operations: u32) -> u32
    ensures { result ≡ defined.function_of operations }
{
    (operations >> 24) % 16
}

// Bits 23-20: the source map.
pub fn source_field(operations: u32) -> u32
    ensures { result ≡ defined.source_field operations }
{
    (operations >> 20) % 16
}

// Bits 19-16: the destination map.
pub fn destination_field(operations: u32) -> u32
    ensures { result ≡ defined.destination_field operations }
{
    (operations >> 16) % 16
}

// Bits 15-12: the pattern map, 8 for all foreground, 9 for a pattern made from the source.
pub fn pattern_field(operations: u32) -> u32
    ensures { result ≡ defined.pattern_field operations }
{
    (operations >> 12) % 16
}

// Bits 7-6: 0 for no mask, 1 for its boundary, 2 for the mask map.
pub fn mask_mode(operations: u32) -> u32
    ensures { result ≡ defined.mask_mode operations }
{
    (operations >> 6) % 4
}

// Bits 5-4: 0 for all pixels, 1 for all but the first, 2 for all but the last, 3 for an area boundary.
pub(crate) fn drawing_mode(operations: u32) -> u32
    ensures { result ≡ defined.drawing_mode operations }
{
    (operations >> 4) % 4
}

// Bits 2-0: 4 for negative X, 2 for negative Y, 1 for Y major.
pub fn octant_of(operations: u32) -> u32
    ensures { result ≡ defined.octant_of operations }
{
    operations % 8
}

// What the fields say.

// Whether a map's field names map A, B or C.
#[tactic(auto, unfolding(crate::specs::Operations::is_map))]
pub(crate) fn is_map(field: u32) -> bool
    ensures { result ≡ defined.is_map field }
{
    matches!(field, 1..=3)
}

// Whether the function draws a line.
#[tactic(auto, unfolding(crate::specs::Operations::is_line))]
pub fn is_line(operations: u32) -> bool
    ensures { result ≡ defined.is_line operations }
{
    matches!(function_of(operations), 3 | 5)
}

// Whether the function draws by step codes.
#[tactic(auto, unfolding(crate::specs::Operations::is_codes))]
pub fn is_codes(operations: u32) -> bool
    ensures { result ≡ defined.is_codes operations }
{
    matches!(function_of(operations), 2 | 4)
}

// Whether the function fills an area.
#[tactic(auto, unfolding(crate::specs::Operations::is_fill))]
pub fn is_fill(operations: u32) -> bool
    ensures { result ≡ defined.is_fill operations }
{
    function_of(operations) == 10
}

// Whether the function draws a block; an area fill has a block's positions.
#[tactic(auto, unfolding(crate::specs::Operations::is_fill, crate::specs::Operations::is_block))]
pub fn is_block(operations: u32) -> bool
    ensures { result ≡ defined.is_block operations }
{
    matches!(function_of(operations), 8..=10)
}

// The drawing mode, which a block ignores.
#[tactic(auto, unfolding(crate::specs::Operations::mode_of))]
pub fn mode_of(operations: u32) -> u32
    ensures { result ≡ defined.mode_of operations }
{
    if is_block(operations) {
        0
    } else {
        drawing_mode(operations)
    }
}

// Whether the function draws at all.
#[tactic(auto, unfolding(crate::specs::Operations::draws))]
pub fn draws(operations: u32) -> bool
    ensures { result ≡ defined.draws operations }
{
    is_line(operations) | is_codes(operations) | is_block(operations)
}

// Whether a colour comes from the source map.
#[tactic(auto, unfolding(crate::specs::Operations::source_is_colour))]
pub(crate) fn source_is_colour(operations: u32) -> bool
    ensures { result ≡ defined.source_is_colour operations }
{
    (foreground_source(operations) == 2) | (background_source(operations) == 2)
}

// Whether the source map is used, for a colour or for the pattern.
#[tactic(auto, unfolding(crate::specs::Operations::uses_source))]
pub fn uses_source(operations: u32) -> bool
    ensures { result ≡ defined.uses_source operations }
{
    source_is_colour(operations) | (pattern_field(operations) == 9)
}

// Whether the pattern map is used.
#[tactic(auto, unfolding(crate::specs::Operations::uses_pattern))]
pub fn uses_pattern(operations: u32) -> bool
    ensures { result ≡ defined.uses_pattern operations }
{
    is_map(pattern_field(operations))
}

// Whether the mask map is used; its boundary alone uses no pixel of it.
#[tactic(auto, unfolding(crate::specs::Operations::uses_mask))]
pub(crate) fn uses_mask(operations: u32) -> bool
    ensures { result ≡ defined.uses_mask operations }
{
    mask_mode(operations) == 2
}
