// The numbers that a field of the image stores.

ghost use Rattle.std.specs.Prelude.{◌≡◌, ℕ, ◌^◌, ◌<◌, ◌≤◌};
ghost use Rattle.std.specs.Int.{w16, w32};
ghost use Rattle.std.proofs.Common.{to_z, rules};
ghost use Rattle.numbers.specs.Circles.{residue};

use numbers::circles::{half_word, signed_half, signed_word, word};

// A number, the bytes that its field has, and the number without a sign that stands there.
pub(crate) trait Stored: Copy {
    ghost BYTES: { ℕ };

    const BYTES: usize;

    ghost read: { ℕ → Self };

    ghost stored: { Self → ℕ };

    fn from_word(word: u32) -> Self
        requires { word < 256 ^ BYTES }
        ensures { result ≡ read word };

    fn to_word(self) -> u32
        ensures value { result ≡ stored self }
        ensures fits { result < 256 ^ BYTES };

    // A field has at most four bytes.
    ghost few: { BYTES ≤ 4 };
}

impl Stored for u8 {
    ghost BYTES = { 1 };

    const BYTES: usize = 1;

    ghost read = { λ x. x };

    ghost stored = { λ x. x };

    ghost few = { Prim.search rules };

    fn from_word(word: u32) -> u8 {
        word as u8
    }

    fn to_word(self) -> u32 {
        self as u32
    }
}

impl Stored for u16 {
    ghost BYTES = { 2 };

    const BYTES: usize = 2;

    ghost read = { λ x. x };

    ghost stored = { λ x. x };

    ghost few = { Prim.search rules };

    fn from_word(word: u32) -> u16 {
        word as u16
    }

    fn to_word(self) -> u32 {
        self as u32
    }
}

impl Stored for u32 {
    ghost BYTES = { 4 };

    const BYTES: usize = 4;

    ghost read = { λ x. x };

    ghost stored = { λ x. x };

    ghost few = { Prim.search rules };

    fn from_word(word: u32) -> u32 {
        word
    }

    fn to_word(self) -> u32 {
        self
    }
}

impl Stored for i16 {
    ghost BYTES = { 2 };

    const BYTES: usize = 2;

    ghost read = { to_z w16 };

    ghost stored = { residue (2 ^ 16) };

    ghost few = { Prim.search rules };

    fn from_word(word: u32) -> i16 {
        signed_half(word as u16)
    }

    fn to_word(self) -> u32 {
        half_word(self) as u32
    }
}

impl Stored for i32 {
    ghost BYTES = { 4 };

    const BYTES: usize = 4;

    ghost read = { to_z w32 };

    ghost stored = { residue (2 ^ 32) };

    ghost few = { Prim.search rules };

    fn from_word(word: u32) -> i32 {
        signed_word(word)
    }

    fn to_word(self) -> u32 {
        word(self)
    }
}
