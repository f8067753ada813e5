//! Conversions by their names: `A_TO_B`, for elementary kinds A and B that differ (IEC 61131-3:2013, 6.6.2.5.2).

ghost use Rattle.std.specs.Prelude.{◌≡◌};
ghost use Rattle.st_rules.specs.Types.{same_kind};
ghost use Rattle.st_rules.specs.Calls as calls;

use plc_text::Text;
use st_types::Elem;

const KINDS: [Elem; 14] = [
    Elem::Bool,
    Elem::Sint,
    Elem::Int,
    Elem::Dint,
    Elem::Lint,
    Elem::Usint,
    Elem::Uint,
    Elem::Udint,
    Elem::Ulint,
    Elem::Byte,
    Elem::Word,
    Elem::Dword,
    Elem::Lword,
    Elem::Time,
];

/// What the name of a conversion from the kind begins with.
fn head(from: Elem) -> &'static [u8]
    ensures { result.now ≡ calls.conversion_head from }
{
    match from {
        Elem::Bool => b"BOOL_TO_",
        Elem::Sint => b"SINT_TO_",
        Elem::Int => b"INT_TO_",
        Elem::Dint => b"DINT_TO_",
        Elem::Lint => b"LINT_TO_",
        Elem::Usint => b"USINT_TO_",
        Elem::Uint => b"UINT_TO_",
        Elem::Udint => b"UDINT_TO_",
        Elem::Ulint => b"ULINT_TO_",
        Elem::Byte => b"BYTE_TO_",
        Elem::Word => b"WORD_TO_",
        Elem::Dword => b"DWORD_TO_",
        Elem::Lword => b"LWORD_TO_",
        Elem::Time => b"TIME_TO_",
    }
}

fn kind_among(text: &[u8], kinds: &[Elem]) -> Option<Elem>
    ensures { result ≡ calls.kind_named text.now kinds.now }
{
    for kind in kinds {
        if kind.name().as_bytes() == text {
            return Some(*kind);
        }
    }
    None
}

fn same_kind(a: Elem, b: Elem) -> bool
    ensures { result ≡ same_kind a b }
{
    a.name() == b.name()
}

fn differing(from: Elem, to: Option<Elem>) -> Option<(Elem, Elem)>
    ensures { result ≡ calls.differing from to }
{
    match to {
        Some(to) => {
            if same_kind(from, to) {
                None
            } else {
                Some((from, to))
            }
        }
        None => None,
    }
}

fn conversion_from(text: &[u8], from: Elem) -> Option<(Elem, Elem)>
    ensures { result ≡ calls.conversion_from text.now from }
{
    match text.strip_prefix(head(from)) {
        Some(rest) => differing(from, kind_among(rest, &KINDS)),
        None => None,
    }
}

fn conversion_among(text: &[u8], kinds: &[Elem]) -> Option<(Elem, Elem)>
    ensures { result ≡ calls.conversion_among text.now kinds.now }
{
    for kind in kinds {
        if let Some(conversion) = conversion_from(text, *kind) {
            return Some(conversion);
        }
    }
    None
}

/// The conversion that a name is.
#[tactic(auto, unfolding(st_rules::specs::Calls::conversion_named))]
pub fn conversion_named(name: &Text) -> Option<(Elem, Elem)>
    ensures { result ≡ calls.conversion_named name.now }
{
    conversion_among(name.as_bytes(), &KINDS)
}
