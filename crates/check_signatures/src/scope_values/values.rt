//! Values in a scope.

ghost use Rattle.std.specs.Prelude.{◌≡◌, Some, IfOk};
ghost use Rattle.st_tree.specs.Expression.{expression_of};
ghost use Rattle.st_rules.specs.Literals.{asked_of};
ghost use Rattle.st_unit_rules.specs.declared_names.Constants as constants;

use default_values::initial_worths::ConstantValues;
use name_resolution::Scope;
use plc_text::NoMemory;
use st_operators::asked_of;
use st_tree::Expr;
use st_types::StType;
use std::alloc::Global;
use type_resolution::written_types::told_value;

/// The values of constant expressions in a scope.
#[derive(Clone, Copy)]
pub struct ScopeValues<'a> {
    pub alloc: Global,
    pub scope: &'a Scope<'a>,
}

/// The value of an expression where a value of the type stands, if all its names are told and it breaks no rule but the limit of operators.
fn value_of_kind(
    alloc: Global,
    s: &Scope<'_>,
    kind: &StType,
    e: &Expr<u32>,
) -> Result<Option<i128>, NoMemory>
    ensures { IfOk result (λ v. v ≡ constants.told_value s.now (asked_of (Some kind.now)) (expression_of e.now)) }
{
    let wanted = kind.copy(alloc)?;
    let asked = asked_of(Some(wanted));
    let value = told_value(alloc, s, e, &asked)?;
    Ok(value)
}

impl ConstantValues for ScopeValues<'_> {
    ghost scope = { λ v. v.scope.now };

    fn told_value(&self, kind: &StType, e: &Expr<u32>) -> Result<Option<i128>, NoMemory>
        ensures { IfOk result (λ v. v ≡ constants.told_value self.now.scope.now (asked_of (Some kind.now)) (expression_of e.now)) }
    {
        let value = value_of_kind(self.alloc, self.scope, kind, e)?;
        Ok(value)
    }
}
