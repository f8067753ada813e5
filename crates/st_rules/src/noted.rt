//! The types in notes.

ghost use Rattle.std.specs.Prelude.{◌≡◌};
ghost use Rattle.st_rules.specs.Expressions as expressions;

use st_types::{Elem, StType};

/// The type in a note; DINT where it cannot be told, which nobody sees.
#[tactic(auto, unfolding(crate::specs::Expressions::told))]
pub fn told(kind: Option<StType>) -> StType
    ensures { result ≡ expressions.told kind }
{
    match kind {
        Some(kind) => kind,
        None => StType::Elementary(Elem::Dint),
    }
}
