//! Numbers in decimal.

ghost use Rattle.std.specs.Prelude.{◌≡◌};
ghost use Rattle.plc_text.specs.Numbers.{number_in};

use crate::words::is_number;

/// The number that the word stands for, if it is one or more decimal digits and their number is one of 32 bits. Leading zeros
/// are allowed, a sign is not.
#[tactic(auto, unfolding(crate::specs::Numbers::number_in))]
pub fn number(word: &str) -> Option<u32>
    ensures { result ≡ number_in word.now }
{
    // `parse` alone would take a sign too.
    if is_number(word.as_bytes()) {
        word.parse().ok()
    } else {
        None
    }
}
