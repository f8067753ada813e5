//! What constant expressions come to where an initial value stands.

ghost use Rattle.std.specs.Prelude.{◌≡◌, Some, IfOk};
ghost use Rattle.st_tree.specs.Expression.{expression_of};
ghost use Rattle.st_rules.specs.Scope.{Scope as AScope};
ghost use Rattle.st_rules.specs.Literals.{asked_of};
ghost use Rattle.st_unit_rules.specs.declared_names.Constants as constants;

use plc_text::NoMemory;
use st_tree::Expr;
use st_types::StType;

/// Values of constant expressions in a scope.
pub trait ConstantValues {
    /// The scope that the expressions stand in.
    ghost scope: { Self → AScope };

    /// The value of a constant expression where a value of the type stands, if it can be told.
    fn told_value(&self, kind: &StType, e: &Expr<u32>) -> Result<Option<i128>, NoMemory>
        ensures { IfOk result (λ v. v ≡ constants.told_value (scope self.now) (asked_of (Some kind.now)) (expression_of e.now)) };
}
