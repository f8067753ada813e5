//! What follows from the definitions of the operations.

ghost use Rattle.std.specs.Prelude.{◌≡◌, ◌≢◌, ℕ, ◌/◌, ◌<◌, ℤ, pos, ◌+ℤ◌, ◌*ℤ◌, ◌≤ℤ◌, Bool, int_div, unsigned_abs};
ghost use Rattle.st_types.specs.declared.elem.Elem.{Elem as Kind};
ghost use Rattle.st_types.specs.Range.{Fits};
ghost use Rattle.plc_num.specs.Wrapping.{Wraps, wrapped};
ghost use Rattle.plc_num.specs.Arithmetic.{rest};
ghost use Rattle.plc_num.specs.Bits.{HasBits, value_of_bits, conjunction, disjunction, complement};

/// A number wraps to one value of the kind. What is wrapped, as each value of the kind, wraps to itself.
pub fn wrapping_laws()
    ensures wraps { (e : Kind) (v : ℤ) → Wraps e v (wrapped e v) }
    ensures one { (e : Kind) (v r s : ℤ) → Wraps e v r → Wraps e v s → r ≡ s }
    ensures again { (e : Kind) (v : ℤ) → wrapped e (wrapped e v) ≡ wrapped e v }
    ensures kept { (e : Kind) (v : ℤ) → Fits e v → wrapped e v ≡ v }
{}

/// The quotient times the divisor, and the remainder, are the dividend. The quotient goes toward zero. The remainder is
/// smaller than the divisor and has the sign of the dividend, where it is not 0.
pub fn division_laws()
    ensures whole { (a b : ℤ) → (int_div a b *ℤ b) +ℤ rest a b ≡ a }
    ensures toward_zero { (a b : ℤ) → unsigned_abs (int_div a b) ≡ unsigned_abs a / unsigned_abs b }
    ensures smaller { (a b : ℤ) → b ≢ pos 0 → unsigned_abs (rest a b) < unsigned_abs b }
    ensures positive { (a b : ℤ) → pos 0 ≤ℤ a → pos 0 ≤ℤ rest a b }
    ensures negative { (a b : ℤ) → a ≤ℤ pos 0 → rest a b ≤ℤ pos 0 }
{}

/// One value of a kind has given bits, and De Morgan's laws.
pub fn bit_laws()
    ensures has { (e : Kind) (f : ℕ → Bool) → HasBits e f (value_of_bits e f) }
    ensures one { (e : Kind) (f : ℕ → Bool) (r s : ℤ) → HasBits e f r → HasBits e f s → r ≡ s }
    ensures not_both { (e : Kind) (a b : ℤ) → complement e (conjunction e a b) ≡ disjunction e (complement e a) (complement e b) }
    ensures neither { (e : Kind) (a b : ℤ) → complement e (disjunction e a b) ≡ conjunction e (complement e a) (complement e b) }
{}
