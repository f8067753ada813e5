//! Which kind widens to which (IEC 61131-3:2013, figure 11).

ghost use Rattle.std.specs.Prelude.{◌≡◌, ◌↔◌, ℤ, IsTrue, MatchOption};
ghost use Rattle.st_types.specs.Range.{Fits};
ghost use Rattle.st_types.specs.declared.elem.Elem.{Elem as Kind};
ghost use Rattle.st_types.specs.Private.Reached.{reached};
ghost use Rattle.st_types.specs.Widening.{Reaches, IsCommon};

use crate::elem::Elem;

/// The kinds, those that operands take in the order in which they are tried.
const KINDS: [Elem; 14] = [
    Elem::Bool,
    Elem::Time,
    Elem::Sint,
    Elem::Usint,
    Elem::Int,
    Elem::Uint,
    Elem::Dint,
    Elem::Udint,
    Elem::Lint,
    Elem::Ulint,
    Elem::Byte,
    Elem::Word,
    Elem::Dword,
    Elem::Lword,
];

/// Whether a value of the first kind may be taken in the second, which has all its values.
pub fn reaches(from: Elem, to: Elem) -> bool
    ensures { IsTrue result ↔ Reaches from to }
{
    is_reached(from, to)
}

fn is_reached(from: Elem, to: Elem) -> bool
    ensures { result ≡ reached from to }
{
    match from {
        Elem::Sint => matches!(to, Elem::Sint | Elem::Int | Elem::Dint | Elem::Lint),
        Elem::Int => matches!(to, Elem::Int | Elem::Dint | Elem::Lint),
        Elem::Dint => matches!(to, Elem::Dint | Elem::Lint),
        Elem::Usint => matches!(
            to,
            Elem::Usint
                | Elem::Uint
                | Elem::Udint
                | Elem::Ulint
                | Elem::Int
                | Elem::Dint
                | Elem::Lint
        ),
        Elem::Uint => matches!(
            to,
            Elem::Uint | Elem::Udint | Elem::Ulint | Elem::Dint | Elem::Lint
        ),
        Elem::Udint => matches!(to, Elem::Udint | Elem::Ulint | Elem::Lint),
        Elem::Byte => matches!(to, Elem::Byte | Elem::Word | Elem::Dword | Elem::Lword),
        Elem::Word => matches!(to, Elem::Word | Elem::Dword | Elem::Lword),
        Elem::Dword => matches!(to, Elem::Dword | Elem::Lword),
        Elem::Bool | Elem::Lint | Elem::Ulint | Elem::Lword | Elem::Time => from == to,
    }
}

/// The kind that two operands take: the first that both reach.
pub fn widen(a: Elem, b: Elem) -> Option<Elem>
    ensures { MatchOption result ((k : Kind) → Reaches a k → Reaches b k → ⊥) (λ k. IsCommon a b k) }
{
    for k in &KINDS {
        if reaches(a, *k) && reaches(b, *k) {
            return Some(*k);
        }
    }
    None
}

/// Widening is reflexive and transitive, it keeps every value, and operands take one kind at most.
pub fn widening_laws()
    ensures reflexive { (a : Kind) → Reaches a a }
    ensures transitive { (a b c : Kind) → Reaches a b → Reaches b c → Reaches a c }
    ensures keeps { (a b : Kind) (v : ℤ) → Reaches a b → Fits a v → Fits b v }
    ensures one { (a b j k : Kind) → IsCommon a b j → IsCommon a b k → j ≡ k }
{}
