// The image's length, mark and version, and where it has each field, one after another; a map has nine bytes.

// The mark XGS.
pub(crate) const MARK: u32 = 0x534758;

pub(crate) const VERSION: u32 = 1;

pub(crate) const MARK_AT: usize = 0;

pub(crate) const VERSION_AT: usize = MARK_AT + 3;

pub(crate) const SIZE_AT: usize = VERSION_AT + 2;

pub(crate) const STATE_AT: usize = SIZE_AT + 4;

pub(crate) const DONE_AT: usize = STATE_AT + 1;

pub(crate) const PASSED_AT: usize = DONE_AT + 2;

pub(crate) const COUNT_AT: usize = PASSED_AT + 2;

pub(crate) const INDEX_AT: usize = COUNT_AT + 1;

pub(crate) const MASK_MAP_AT: usize = INDEX_AT + 1;

pub(crate) const MAP_A_AT: usize = MASK_MAP_AT + 9;

pub(crate) const MAP_B_AT: usize = MAP_A_AT + 9;

pub(crate) const MAP_C_AT: usize = MAP_B_AT + 9;

pub(crate) const E_AT: usize = MAP_C_AT + 9;

pub(crate) const K1_AT: usize = E_AT + 4;

pub(crate) const K2_AT: usize = K1_AT + 4;

pub(crate) const STEPS_AT: usize = K2_AT + 4;

pub(crate) const FOREGROUND_MIX_AT: usize = STEPS_AT + 4;

pub(crate) const BACKGROUND_MIX_AT: usize = FOREGROUND_MIX_AT + 1;

pub(crate) const CONDITION_AT: usize = BACKGROUND_MIX_AT + 1;

pub(crate) const VALUE_AT: usize = CONDITION_AT + 1;

pub(crate) const PLANES_AT: usize = VALUE_AT + 4;

pub(crate) const CARRIES_AT: usize = PLANES_AT + 4;

pub(crate) const FOREGROUND_AT: usize = CARRIES_AT + 4;

pub(crate) const BACKGROUND_AT: usize = FOREGROUND_AT + 4;

pub(crate) const DIMENSIONS_AT: usize = BACKGROUND_AT + 4;

pub(crate) const ORIGIN_AT: usize = DIMENSIONS_AT + 4;

pub(crate) const SOURCE_AT: usize = ORIGIN_AT + 4;

pub(crate) const PATTERN_AT: usize = SOURCE_AT + 4;

pub(crate) const DESTINATION_AT: usize = PATTERN_AT + 4;

pub(crate) const OPERATIONS_AT: usize = DESTINATION_AT + 4;

// The bytes of an image.
pub const BYTES: usize = OPERATIONS_AT + 4;
