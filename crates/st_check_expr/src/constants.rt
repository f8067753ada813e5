//! Expressions where a constant is wanted: what they break, and what they come to.

ghost use Rattle.std.specs.Prelude.{◌≡◌, IfOk};
ghost use Rattle.st_tree.specs.Expression.{expression_of};
ghost use Rattle.st_rules.specs.Faults.{earlier, least};
ghost use Rattle.st_rules.specs.Scope.{Scope as AScope};
ghost use Rattle.st_unit_rules.specs.declared_names.Constants as constants;
ghost use Rattle.constant_folding.specs.constant_values.Outcome.{outcome};
ghost use Rattle.st_check_expr.specs.Constants.{IsConstant};
ghost use Rattle.st_check_expr.specs.Private.Constants.{number_found, own_least};

use crate::walk::check;
use check_calls::value_fault;
use check_nodes::{Checked, line_of, operators_fault};
use constant_folding::{Outcome, constant_part_fault, noted_value};
use name_resolution::Scope;
use plc_text::{Code, NoMemory};
use st_rules::{Asked, at, earlier};
use st_tree::{Expr, Note};
use st_types::StType;
use std::alloc::Global;

/// What is found out about an expression where a constant is wanted.
pub struct Constant {
    /// None where it cannot be told.
    pub told: Option<StType>,
    /// The least rule that is broken, with its least line.
    pub least: Option<(Code, u32)>,
    pub tree: Expr<Note>,
    pub value: Outcome,
    /// The number that it comes to, where no rule is broken but the limit of operators.
    pub number: Option<i128>,
}

// By hand, so that a drop is one call: a derived one is written out wherever a `?` may need it.
impl Drop for Constant {
    fn drop(self) {
        drop(self.into_tree());
    }
}

impl Constant {
    /// The typed tree alone.
    pub fn into_tree(self) -> Expr<Note>
        ensures { result ≡ self.tree }
    {
        let Constant {
            told,
            least: _,
            tree,
            value: _,
            number: _,
        } = self;
        drop(told);
        tree
    }
}

/// E13 where a zero divisor ends the value.
fn divisor_fault(value: Outcome) -> Option<(Code, u32)>
    ensures { (s : AScope) → result ≡ least (constants.zero_divisor s (outcome value)) }
{
    match value {
        Outcome::DividesByZero(line) => at(Code::E13, line),
        Outcome::Number(_) => None,
        Outcome::Untold => None,
    }
}

/// The number, where no rule is broken.
fn number_of(least: Option<(Code, u32)>, value: Outcome) -> Option<i128>
    ensures { result ≡ number_found least (outcome value) }
{
    if least.is_some() {
        return None;
    }
    match value {
        Outcome::Number(z) => Some(z),
        Outcome::DividesByZero(_) => None,
        Outcome::Untold => None,
    }
}

/// What an expression breaks as a value, in its parts, and by a zero divisor.
fn own_fault(
    least: Option<(Code, u32)>,
    of_value: Option<(Code, u32)>,
    of_parts: Option<(Code, u32)>,
    value: Outcome,
) -> Option<(Code, u32)>
    ensures { (s : AScope) → result ≡ own_least s least of_value of_parts (outcome value) }
{
    let first = earlier(least, of_value);
    let second = earlier(first, of_parts);
    earlier(second, divisor_fault(value))
}

/// What is found out: from the typed tree, what the value, the parts that are no constants, and the number of operators break, and what
/// the expression comes to.
fn constant_by(
    x: Checked,
    of_value: Option<(Code, u32)>,
    of_parts: Option<(Code, u32)>,
    of_operators: Option<(Code, u32)>,
    value: Outcome,
) -> Constant
    ensures told { result.told ≡ x.told }
    ensures least { (s : AScope) → result.least ≡ earlier (own_least s x.least of_value of_parts (outcome value)) of_operators }
    ensures tree { result.tree ≡ x.tree }
    ensures value { result.value ≡ value }
    ensures number { (s : AScope) → result.number ≡ number_found (own_least s x.least of_value of_parts (outcome value)) (outcome value) }
{
    let own = own_fault(x.least, of_value, of_parts, value);
    let (told, _, tree) = x.into_parts();
    Constant {
        told,
        least: earlier(own, of_operators),
        tree,
        value,
        number: number_of(own, value),
    }
}

/// Checks an expression where a constant is wanted, at a place that asks for something: its type, the least rule that it breaks at its
/// least line, its typed tree, and what it comes to.
pub fn check_constant(
    alloc: Global,
    s: &Scope<'_>,
    e: &Expr<u32>,
    asked: &Asked,
) -> Result<Constant, NoMemory>
    ensures { IfOk result (λ c. IsConstant c s.now asked.now (expression_of e.now)) }
{
    let x = check(alloc, s, e, asked)?;
    let of_value = value_fault(s, line_of(e), asked, &x.told);
    let of_parts = constant_part_fault(s, e);
    let value = noted_value(&x.tree);
    Ok(constant_by(x, of_value, of_parts, operators_fault(e), value))
}
