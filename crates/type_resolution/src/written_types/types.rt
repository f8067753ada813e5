//! Types as they are written.

ghost use Rattle.std.specs.Prelude.{◌≡◌, IfOk, option_and_then};
ghost use Rattle.st_rules.specs.Expressions as expressions;
ghost use Rattle.st_unit_rules.specs.declared_names.WrittenTypes as written;

use crate::written_types::arrays::in_arrays;
use name_resolution::Scope;
use plc_text::{NoMemory, Text};
use st_rules::copied;
use st_tree::{SimpleSpec, TypeSpec};
use st_types::StType;
use std::alloc::Global;

/// The type that a name means in a type's place, where it is told.
pub fn named_type(alloc: Global, s: &Scope<'_>, name: &Text) -> Result<Option<StType>, NoMemory>
    ensures { IfOk result (λ t. t ≡ written.named_type s.now name.now) }
{
    match s.type_named(name) {
        Some(found) => {
            let kind = copied(alloc, &found.kind)?;
            Ok(kind)
        }
        None => Ok(None),
    }
}

fn reference_to(kind: Option<StType>) -> Option<StType>
    ensures { result ≡ option_and_then expressions.reference_to kind }
{
    match kind {
        Some(StType::Instance(class)) => Some(StType::Reference(class)),
        Some(_) => None,
        None => None,
    }
}

/// What the innermost array of a type is of.
fn element_written(
    alloc: Global,
    s: &Scope<'_>,
    element: &SimpleSpec<u32>,
) -> Result<Option<StType>, NoMemory>
    ensures { IfOk result (λ t. t ≡ written.element_written s.now element.now) }
{
    match element {
        SimpleSpec::Elementary(_, kind) => Ok(Some(StType::Elementary(*kind))),
        SimpleSpec::Named(_, name) => {
            let kind = named_type(alloc, s, name)?;
            Ok(kind)
        }
        SimpleSpec::Reference(_, _, name) => {
            let kind = named_type(alloc, s, name)?;
            Ok(reference_to(kind))
        }
    }
}

/// The type that is written, where it can be told. Arrays in one another are told up to 65; it takes time linear in the text.
#[tactic(auto, unfolding(st_unit_rules::specs::declared_names::WrittenTypes::type_written))]
pub fn type_written(
    alloc: Global,
    s: &Scope<'_>,
    spec: &TypeSpec<u32>,
) -> Result<Option<StType>, NoMemory>
    ensures { IfOk result (λ t. t ≡ written.type_written s.now spec.now) }
{
    let element = element_written(alloc, s, &spec.element)?;
    let kind = in_arrays(alloc, s, spec.arrays.as_slice(), element)?;
    Ok(kind)
}
