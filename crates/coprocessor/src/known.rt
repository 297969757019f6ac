ghost use Rattle.std.specs.Prelude.{◌≡◌, true};
ghost use Rattle.coprocessor.specs.Valid.{valid_of};

use crate::Coprocessor;

// A record that is known to be valid, whose calls do not ask it again.
#[derive(Clone, Copy)]
pub struct Known {
    pub coprocessor: Coprocessor,
    pub ghost valid: { valid_of coprocessor ≡ true },
}
