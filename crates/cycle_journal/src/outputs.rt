//! The output bytes of a cycle.

ghost use Rattle.std.specs.Prelude.{◌≡◌, ℕ, ◌≤◌, ◌<◌, ◌↔◌, [], length, IsTrue};
ghost use Rattle.std.specs.List.{AllByRecursion};
ghost use Rattle.std.specs.Prelude.{nat_eq};
ghost use Rattle.std.specs.Cmp.{partial_equiv_from_equiv};
ghost use Rattle.std.specs.Cmp.Lexicographic.{pointwise, nat_list_eq_equiv};
ghost use Rattle.cycle_journal.specs.Private.Candidate.{hex_in};

use std::marker::Model;

/// How many output bytes there may be.
pub const OUTPUT_LIMIT: usize = 256;

/// The output bytes of a cycle, from byte 0 of the output image on, 256 at most. They stand in room of their own, so they
/// take no memory.
#[derive(Debug, Drop)]
pub struct Outputs {
    bytes: [u8; 256],
    len: u16,
}

// The bytes behind those that stand are 0, so equal outputs are equal values, byte for byte.
impl Model for Outputs {
    ghost use Rattle.std.specs.Prelude.{ℕ, ◌-◌, List, ◌++◌, length, take, replicate};
    ghost use Rattle.cycle_journal.specs.Outputs.{IsPadded, len_again, room_again};

    ghost Value = { List ℕ };

    ghost view = { λ o. take o.len o.bytes };

    ghost invariant = { λ o. IsPadded o.bytes o.len };

    ghost inverse = { λ bytes. record { bytes = bytes ++ replicate (256 - length bytes) 0; len = length bytes } };

    ghost inverse_ok = { λ o h i. record { bytes = room_again o.bytes o.len h i; len = len_again o.bytes o.len h i } };
}

impl Outputs {
    /// No bytes.
    pub fn new() -> Outputs
        ensures { result ≡ [] }
    {
        Outputs {
            bytes: [0; OUTPUT_LIMIT],
            len: 0,
        }
    }

    /// These bytes, of which there are few enough.
    pub fn from_slice(items: &[u8]) -> Outputs
        requires { length items.now ≤ 256 }
        ensures { result ≡ items.now }
    {
        let mut bytes = [0; OUTPUT_LIMIT];
        bytes[..items.len()].copy_from_slice(items);
        Outputs {
            bytes,
            len: items.len() as u16,
        }
    }

    /// The bytes of pairs of hexadecimal digits in either case, if they are such pairs and not too many.
    #[tactic(auto, unfolding(crate::specs::Private::Candidate::hex_in))]
    pub(crate) fn from_hex(digits: &str) -> Option<Outputs>
        ensures { result ≡ hex_in digits.now }
    {
        let len = digits.len() / 2;
        if len > OUTPUT_LIMIT {
            return None;
        }
        let mut bytes = [0; OUTPUT_LIMIT];
        match hex::decode_to_slice(digits.as_bytes(), &mut bytes[..len]) {
            Ok(()) => Some(Outputs {
                bytes,
                len: len as u16,
            }),
            Err(_) => None,
        }
    }

    /// The bytes, 256 at most.
    pub fn as_slice(&self) -> &[u8]
        ensures same { result.now ≡ self.now }
        ensures few { length self.now ≤ 256 }
    {
        &self.bytes[..self.len as usize]
    }

    /// How many bytes there are. Each is below 256.
    pub fn len(&self) -> usize
        ensures same { result ≡ length self.now }
        ensures few { length self.now ≤ 256 }
        ensures bytes { AllByRecursion (λ b. b < 256) self.now }
    {
        let bytes = self.as_slice();
        bytes.len()
    }

    /// Whether there are no bytes.
    pub fn is_empty(&self) -> bool
        ensures { IsTrue result ↔ (self.now ≡ []) }
    {
        self.as_slice().is_empty()
    }
}

impl PartialEq for Outputs {
    ghost eq = { pointwise nat_eq };

    ghost laws = { partial_equiv_from_equiv nat_list_eq_equiv };

    fn eq(&self, other: &Outputs) -> bool
        ensures value { result ≡ pointwise nat_eq self.now other.now }
        ensures same { IsTrue result ↔ (self.now ≡ other.now) }
    {
        self.as_slice() == other.as_slice()
    }
}

impl Eq for Outputs {
    ghost laws = { nat_list_eq_equiv };
}
