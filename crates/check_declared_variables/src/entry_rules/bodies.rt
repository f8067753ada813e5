//! What a name of TYPE stands for.

ghost use Rattle.std.specs.Prelude.{◌≡◌, IfOk};
ghost use Rattle.st_unit_rules.specs.DeclarationRules as rules;
ghost use Rattle.check_limits.specs.type_sizes.Sizes.{Measures};
ghost use Rattle.check_declared_variables.specs.entry_rules.Private.Bodies.{IsAlias, IsEnumeration, IsStructure, BodyChecks};

use crate::entry_rules::groups::{CheckedGroups, check_groups};
use crate::type_rules::{CheckedType, check_type};
use crate::variable_rules::copied_names;
use check_limits::{TypeSizes, Within, structure_too_deep, too_deep};
use declared_graph::{DeclaredGraph, own_values_fault};
use name_resolution::Scope;
use plc_text::{Code, NoMemory};
use st_rules::earlier;
use st_tree::{Name, Note, TypeBody};
use std::alloc::Global;

/// What is found out about what a name stands for, with its depth.
#[derive(Drop)]
pub struct CheckedBody {
    pub least: Option<(Code, u32)>,
    pub body: TypeBody<Note>,
}

/// An alias that breaks these rules beside those of its type.
fn alias_of(found: CheckedType, own: Option<(Code, u32)>, deep: Option<(Code, u32)>) -> CheckedBody
    ensures { IsAlias result found own deep }
{
    CheckedBody {
        least: earlier(earlier(found.least, own), deep),
        body: TypeBody::Alias(found.into_tree()),
    }
}

fn enumeration_of(alloc: Global, names: &[Name]) -> Result<CheckedBody, NoMemory>
    ensures { IfOk result (λ c. IsEnumeration c names.now) }
{
    let names = copied_names(alloc, names)?;
    Ok(CheckedBody {
        least: None,
        body: TypeBody::Enumeration(names),
    })
}

fn structure_of(found: CheckedGroups, depth: Option<(Code, u32)>) -> CheckedBody
    ensures { IsStructure result found depth }
{
    CheckedBody {
        least: earlier(found.least, depth),
        body: TypeBody::Structure(found.into_groups()),
    }
}

/// Checks what the entry of TYPE with this name and number stands for, which is the declaration at this place.
pub fn check_body(
    alloc: Global,
    s: &Scope<'_>,
    sizes: &TypeSizes,
    graph: &DeclaredGraph,
    name: &Name,
    place: usize,
    number: u32,
    body: &TypeBody<u32>,
) -> Result<CheckedBody, NoMemory>
    requires unit { s.now ≡ rules.unit graph.now.decls }
    requires sizes { Measures sizes.now s.now }
    ensures { IfOk result (λ c. BodyChecks c graph.now.decls name.now place number body.now) }
{
    match body {
        TypeBody::Alias(spec) => {
            let found = check_type(alloc, s, spec)?;
            let own = own_values_fault(alloc, &name.text, spec)?;
            let depth = too_deep(sizes, graph, Within::Entry, name.line, spec, &found.kind);
            Ok(alias_of(found, own, depth))
        }
        TypeBody::Enumeration(names) => {
            let c = enumeration_of(alloc, names.as_slice())?;
            Ok(c)
        }
        TypeBody::Structure(groups) => {
            let found = check_groups(alloc, s, groups.as_slice())?;
            let depth = structure_too_deep(sizes, graph, name.line, place, number);
            Ok(structure_of(found, depth))
        }
    }
}
