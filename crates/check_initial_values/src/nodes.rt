//! Nodes of initial values, from what is found out about the nodes below them.

ghost use Rattle.std.specs.Prelude.{◌≡◌, IfOk};
ghost use Rattle.st_tree.specs.Number as number;
ghost use Rattle.st_rules.specs.Faults.{least};
ghost use Rattle.st_rules.specs.Literals.{past_64_bits};
ghost use Rattle.check_initial_values.specs.Private.Nodes.{IsArray, IsFields, IsOne, IsRepeated, NoParts, AddsPart, NoFields, AddsField, IsField};

use crate::fields::NotedName;
use crate::found::{CheckedField, CheckedFields, CheckedInitial, CheckedPart, CheckedParts};
use plc_text::{Code, Items, NoMemory, Text};
use st_rules::{earlier, when};
use st_tree::{FieldInit, Init, Part, number_of};
use std::alloc::Global;

/// A list in brackets, which breaks this by itself.
#[tactic(auto, using(st_tree::specs::Initial::initial_views))]
pub fn array_of(line: u32, own: Option<(Code, u32)>, found: CheckedParts) -> CheckedInitial
    ensures { IsArray result line own found }
{
    let CheckedParts { least, parts } = found;
    CheckedInitial {
        least: earlier(own, least),
        tree: Init::Array(line, parts),
    }
}

/// A list with names, which breaks this by itself.
#[tactic(auto, using(st_tree::specs::Initial::initial_views))]
pub fn fields_of(line: u32, own: Option<(Code, u32)>, found: CheckedFields) -> CheckedInitial
    ensures { IsFields result line own found }
{
    let CheckedFields { least, fields } = found;
    CheckedInitial {
        least: earlier(own, least),
        tree: Init::Fields(line, fields),
    }
}

/// A value of a list by itself.
#[tactic(auto, using(st_tree::specs::Initial::initial_views))]
pub fn one_of(found: CheckedInitial) -> CheckedPart
    ensures { IsOne result found }
{
    let CheckedInitial { least, tree } = found;
    CheckedPart {
        least,
        part: Part::One(tree),
    }
}

/// A count that takes more than 64 bits.
fn count_fault(line: u32, digits: &Text) -> Option<(Code, u32)>
    ensures { result ≡ least (past_64_bits line (number.number_of digits.now)) }
{
    when(number_of(digits.as_str()).is_none(), Code::E13, line)
}

/// A value that a list has so many times.
#[tactic(auto, using(st_tree::specs::Initial::initial_views))]
pub fn repeated_of(line: u32, digits: Text, found: CheckedInitial) -> CheckedPart
    ensures { IsRepeated result line digits found }
{
    let CheckedInitial { least, tree } = found;
    let own = count_fault(line, &digits);
    CheckedPart {
        least: earlier(own, least),
        part: Part::Repeated(line, digits, tree),
    }
}

/// No part.
pub fn no_part(alloc: Global) -> CheckedParts
    ensures { NoParts result }
{
    CheckedParts {
        least: None,
        parts: Items::new(alloc),
    }
}

/// The parts with one more.
pub fn with_part(so_far: CheckedParts, one: CheckedPart) -> Result<CheckedParts, NoMemory>
    ensures { IfOk result (λ x. AddsPart x so_far one) }
{
    let CheckedParts { least, mut parts } = so_far;
    let CheckedPart { least: own, part } = one;
    parts.push(part)?;
    Ok(CheckedParts {
        least: earlier(least, own),
        parts,
    })
}

/// No value with a name.
pub fn no_field(alloc: Global) -> CheckedFields
    ensures { NoFields result }
{
    CheckedFields {
        least: None,
        fields: Items::new(alloc),
    }
}

/// The values with one more, whose name breaks this.
pub fn with_field(
    so_far: CheckedFields,
    name: Option<(Code, u32)>,
    one: CheckedField,
) -> Result<CheckedFields, NoMemory>
    ensures { IfOk result (λ x. AddsField x so_far name one) }
{
    let CheckedFields { least, mut fields } = so_far;
    let CheckedField { least: own, field } = one;
    fields.push(field)?;
    Ok(CheckedFields {
        least: earlier(least, earlier(name, own)),
        fields,
    })
}

/// A value for a name.
pub fn field_of(named: NotedName, found: CheckedInitial) -> CheckedField
    ensures { IsField result named found }
{
    let NotedName { note, name } = named;
    let CheckedInitial { least, tree } = found;
    CheckedField {
        least,
        field: FieldInit {
            note,
            name,
            value: tree,
        },
    }
}
