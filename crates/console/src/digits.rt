// A word as a number.
ghost use Rattle.std.specs.Prelude.{◌≡◌, ◌≤◌};
ghost use Rattle.console.specs.Digits.{fitted, word_number};

use crate::Wide;

// The number in 32 bits.
#[tactic(auto, unfolding(crate::specs::Digits::fitted))]
fn fit(n: u64, wide: Wide) -> u64
    ensures { result ≡ fitted wide n }
{
    match wide {
        Wide::Low => n & u64::from(u32::MAX),
        Wide::Largest => n.min(u64::from(u32::MAX)),
    }
}

// The number that the word is, if it is one, in 32 bits.
#[tactic(auto, unfolding(crate::specs::Digits::word_number))]
pub(crate) fn number(word: &[u8], base: u32, wide: Wide) -> Option<u32>
    requires { (1 ≤ base) × (base ≤ 16) }
    ensures { result ≡ word_number wide base word.now }
{
    if word.is_empty() {
        return None;
    }
    let mut n = 0;
    for &byte in word {
        let digit = char::from(byte).to_digit(16)?;
        if base <= digit {
            return None;
        }
        n = fit(n * u64::from(base) + u64::from(digit), wide);
    }
    Some(n as u32)
}
