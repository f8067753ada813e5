//! Values of constant expressions, where they can be told.

ghost use Rattle.std.specs.Prelude.{◌≡◌, if◌then◌else◌, None, IfOk};
ghost use Rattle.st_tree.specs.Expression.{expression_of};
ghost use Rattle.st_unit_rules.specs.declared_names.Constants as constants;
ghost use Rattle.st_unit_rules.specs.declared_names.WrittenTypes as written;

use constant_folding::names_are_told;
use name_resolution::Scope;
use plc_text::NoMemory;
use st_check_expr::check_constant;
use st_operators::is_number;
use st_rules::Asked;
use st_tree::Expr;
use st_types::StType;
use std::alloc::Global;

/// The value of a constant expression, where all its names are told and it breaks no rule but the limit of operators.
pub fn told_value(
    alloc: Global,
    s: &Scope<'_>,
    e: &Expr<u32>,
    asked: &Asked,
) -> Result<Option<i128>, NoMemory>
    ensures { IfOk result (λ v. v ≡ constants.told_value s.now asked.now (expression_of e.now)) }
{
    if !names_are_told(s, e) {
        return Ok(None);
    }
    let constant = check_constant(alloc, s, e, asked)?;
    Ok(constant.number)
}

/// Whether the type is one of integers or bit strings.
pub fn is_number_type(kind: &Option<StType>) -> bool
    ensures { result ≡ written.is_number_type kind.now }
{
    match kind {
        Some(StType::Elementary(e)) => is_number(*e),
        Some(_) => false,
        None => false,
    }
}

/// A number, where it is one of integers or bit strings.
fn if_number(kind: &Option<StType>, number: Option<i128>) -> Option<i128>
    ensures { result ≡ (if written.is_number_type kind.now then number else None) }
{
    if is_number_type(kind) { number } else { None }
}

/// The value of a bound, where it is an integer or a bit string that can be told.
pub fn bound_value(alloc: Global, s: &Scope<'_>, e: &Expr<u32>) -> Result<Option<i128>, NoMemory>
    ensures { IfOk result (λ v. v ≡ written.bound_value s.now (expression_of e.now)) }
{
    if !names_are_told(s, e) {
        return Ok(None);
    }
    let constant = check_constant(alloc, s, e, &Asked::Anything)?;
    Ok(if_number(&constant.told, constant.number))
}
