//! The walk over an initial value: in one pass the least rule that it breaks, and its typed tree.

ghost use Rattle.std.specs.Prelude.{◌≡◌, IfOk};
ghost use Rattle.st_tree.specs.Expression.{expression_of};
ghost use Rattle.st_tree.specs.Initial as plain;
ghost use Rattle.st_rules.specs.Faults.{least};
ghost use Rattle.check_initial_values.specs.Walk.{ChecksInitial};
ghost use Rattle.check_initial_values.specs.Lent.{lent};
ghost use Rattle.check_initial_values.specs.Private.Found.{array_faults, ValueChecks, PartChecks, PartsFind, FieldChecks, FieldsFind};

use crate::counts::{count_fault, count_parts, element_given, no_array_fault};
use crate::fields::{copied, given_by, given_type, name_fault, no_fields_fault, noted_name};
use crate::found::{CheckedField, CheckedFields, CheckedInitial, CheckedPart, CheckedParts};
use crate::nodes::{
    array_of, field_of, fields_of, no_field, no_part, one_of, repeated_of, with_field, with_part,
};
use crate::worth::with_value;
use check_names::name_spaces::HeldNames;
use name_resolution::Scope;
use plc_text::{Code, NoMemory, Text};
use st_check_expr::check_constant;
use st_operators::asked_of;
use st_rules::earlier;
use st_tree::{Expr, FieldInit, Init, Part};
use st_types::StType;
use std::alloc::Global;

/// A constant expression where a value of this type stands.
fn check_value(
    alloc: Global,
    s: &Scope<'_>,
    e: &Expr<u32>,
    kind: Option<&StType>,
) -> Result<CheckedInitial, NoMemory>
    ensures { IfOk result (λ c. ValueChecks c s.now (lent kind.entry) (expression_of e.now)) }
{
    let asked = asked_of(copied(alloc, kind)?);
    let c = check_constant(alloc, s, e, &asked)?;
    let (least, value) = (c.least, c.value);
    Ok(CheckedInitial {
        least,
        tree: Init::Value(with_value(c.into_tree(), value)),
    })
}

/// What a list in brackets breaks by itself, at this line.
fn array_fault(
    line: u32,
    kind: Option<&StType>,
    parts: &[Part<u32>],
) -> Result<Option<(Code, u32)>, NoMemory>
    ensures { IfOk result (λ f. f ≡ least (array_faults line (lent kind.entry) (plain.parts_of parts.now))) }
{
    let of_count = count_fault(line, kind, count_parts(parts))?;
    Ok(earlier(no_array_fault(line, kind), of_count))
}

/// Checks an initial value where a value of this type stands, or where the type cannot be told: the least rule that it breaks, at its
/// least line, and its typed tree, in which each constant expression has what it comes to. It takes time linear in the text.
#[cycle(initial)]
pub fn check_initial(
    alloc: Global,
    s: &Scope<'_>,
    init: &Init<u32>,
    kind: Option<&StType>,
) -> Result<CheckedInitial, NoMemory>
    ensures { IfOk result (λ c. ChecksInitial c s.now (lent kind.entry) (plain.initial_of init.now)) }
{
    match init {
        Init::Value(e) => {
            let c = check_value(alloc, s, e, kind)?;
            Ok(c)
        }
        Init::Array(line, parts) => {
            let parts = parts.as_slice();
            let own = array_fault(*line, kind, parts)?;
            let found = check_parts(alloc, s, parts, element_given(kind))?;
            Ok(array_of(*line, own, found))
        }
        Init::Fields(line, fields) => {
            let own = no_fields_fault(*line, kind);
            let found = check_fields(alloc, s, fields.as_slice(), kind)?;
            Ok(fields_of(*line, own, found))
        }
    }
}

/// Checks the parts of a list, for elements of this type.
#[cycle(initial)]
fn check_parts(
    alloc: Global,
    s: &Scope<'_>,
    parts: &[Part<u32>],
    kind: Option<&StType>,
) -> Result<CheckedParts, NoMemory>
    ensures { IfOk result (λ x. PartsFind x s.now (lent kind.entry) (plain.parts_of parts.now)) }
{
    let mut so_far = no_part(alloc);
    for part in parts {
        let one = check_part(alloc, s, part, kind)?;
        so_far = with_part(so_far, one)?;
    }
    Ok(so_far)
}

#[cycle(initial)]
fn check_part(
    alloc: Global,
    s: &Scope<'_>,
    part: &Part<u32>,
    kind: Option<&StType>,
) -> Result<CheckedPart, NoMemory>
    ensures { IfOk result (λ x. PartChecks x s.now (lent kind.entry) (plain.part_of part.now)) }
{
    match part {
        Part::One(init) => {
            let x = check_initial(alloc, s, init, kind)?;
            Ok(one_of(x))
        }
        Part::Repeated(line, digits, init) => {
            // before the tree, which nothing holds where this can fail
            let digits = Text::copy(alloc, digits.as_str())?;
            let x = check_initial(alloc, s, init, kind)?;
            Ok(repeated_of(*line, digits, x))
        }
    }
}

/// Checks the values of a list with names, for a type.
#[cycle(initial)]
fn check_fields(
    alloc: Global,
    s: &Scope<'_>,
    fields: &[FieldInit<u32>],
    kind: Option<&StType>,
) -> Result<CheckedFields, NoMemory>
    ensures { IfOk result (λ x. FieldsFind x s.now (lent kind.entry) (plain.fields_of fields.now)) }
{
    let mut so_far = no_field(alloc);
    let mut before = HeldNames::new(alloc);
    for field in fields {
        let name = name_fault(alloc, s, kind, field, &mut before)?;
        let one = check_field(alloc, s, field, kind)?;
        so_far = with_field(so_far, name, one)?;
    }
    Ok(so_far)
}

/// Checks the value for a name in a list.
#[cycle(initial)]
fn check_field(
    alloc: Global,
    s: &Scope<'_>,
    field: &FieldInit<u32>,
    kind: Option<&StType>,
) -> Result<CheckedField, NoMemory>
    ensures { IfOk result (λ x. FieldChecks x s.now (lent kind.entry) field.now) }
{
    let g = given_by(s, kind, &field.name);
    let named = noted_name(alloc, field.note, &field.name, g)?;
    let x = check_initial(alloc, s, &field.value, given_type(g))?;
    Ok(field_of(named, x))
}
