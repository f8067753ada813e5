//! Types and values of constants.

ghost use Rattle.std.specs.Prelude.{◌≡◌, Some, None, option_map, IfOk, MatchOption};
ghost use Rattle.st_tree.specs.Expression.{expression_of};
ghost use Rattle.st_tree.specs.Initial.{initial_of};
ghost use Rattle.st_rules.specs.Scope.{Scope as AScope};
ghost use Rattle.st_unit_rules.specs.declared_names.Variables as variables;
ghost use Rattle.st_unit_rules.specs.declaration_list.Written.{written_of};
ghost use Rattle.type_resolution.specs.written_types.Types.{TellsConstant};
ghost use Rattle.type_resolution.specs.written_types.Private.Values as own;

use crate::written_types::types::type_written;
use crate::written_types::values::told_value;
use name_resolution::Scope;
use plc_text::NoMemory;
use st_rules::Asked;
use st_tree::{Expr, Init};
use st_types::StType;
use st_unit_rules::declaration_list::WrittenName;
use std::alloc::Global;

fn may_be_constant(kind: &StType) -> bool
    ensures { result ≡ variables.may_be_constant kind.now }
{
    match kind {
        StType::Elementary(_) => true,
        StType::Enumeration(_) => true,
        StType::Structure(_) => false,
        StType::Array(_, _, _) => false,
        StType::Instance(_) => false,
        StType::Reference(_) => false,
        StType::Interface(_) => false,
    }
}

/// The expression that is given as an initial value.
#[tactic(auto, using(st_tree::specs::Initial::initial_views))]
fn expression_given(initial: &Option<Init<u32>>) -> Option<&Expr<u32>>
    ensures { MatchOption result (own.expression_given (option_map initial_of initial.now) ≡ None) (λ e. own.expression_given (option_map initial_of initial.now) ≡ Some (expression_of e.now)) }
{
    match initial {
        Some(Init::Value(e)) => Some(e),
        Some(Init::Array(_, _)) => None,
        Some(Init::Fields(_, _)) => None,
        None => None,
    }
}

/// The value of a constant of this type by its initial value, where it can be told.
fn value_given(
    alloc: Global,
    s: &Scope<'_>,
    kind: &StType,
    initial: &Option<Init<u32>>,
) -> Result<Option<i128>, NoMemory>
    ensures { IfOk result (λ v. v ≡ variables.value_given s.now kind.now (option_map initial_of initial.now)) }
{
    if !may_be_constant(kind) {
        return Ok(None);
    }
    match expression_given(initial) {
        Some(e) => {
            let wanted = kind.copy(alloc)?;
            let value = told_value(alloc, s, e, &Asked::Wanted(wanted))?;
            Ok(value)
        }
        None => Ok(None),
    }
}

/// The type and the value of a constant, where both can be told. It takes time linear in the text.
pub fn constant_of(
    alloc: Global,
    s: &Scope<'_>,
    name: &WrittenName<'_>,
) -> Result<Option<(StType, i128)>, NoMemory>
    ensures { IfOk result (λ c. TellsConstant c s.now (written_of name.now)) }
{
    let kind = type_written(alloc, s, &name.item.kind)?;
    let Some(kind) = kind else {
        return Ok(None);
    };
    let value = value_given(alloc, s, &kind, &name.item.initial)?;
    match value {
        Some(value) => Ok(Some((kind, value))),
        None => Ok(None),
    }
}
