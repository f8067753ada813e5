//! How many values locals have.

ghost use Rattle.std.specs.Prelude.{◌≡◌, ◌+◌, Bool, filter, ℕ};
ghost use Rattle.st_rules.specs.Faults.{least};
ghost use Rattle.st_rules.specs.Scope.{Scope, is_of_body};
ghost use Rattle.st_unit_rules.specs.DeclarationRules.{is_local};
ghost use Rattle.st_unit_rules.specs.Limits as limits;
ghost use Rattle.check_limits.specs.type_sizes.Size.{capped};
ghost use Rattle.check_limits.specs.type_sizes.Sizes.{Measures};

use crate::type_sizes::TypeSizes;
use plc_text::Code;
use st_rules::{DeclaredVariable, when};
use st_tree::SectionSort;

/// More values than the locals of a routine or of a body may have.
const LIMIT: u32 = 1_024;

/// Of an in-out one.
fn variable_values(sizes: &TypeSizes, variable: &DeclaredVariable) -> u32
    ensures { (s : Scope) → Measures sizes.now s → result ≡ capped (limits.variable_values s variable.now) }
{
    match variable.sort {
        SectionSort::InOut => 1,
        _ => sizes.values_of(&variable.kind),
    }
}

/// What counts among the locals of a routine.
fn is_local(variable: &DeclaredVariable) -> bool
    ensures { result ≡ is_local variable.now }
{
    match variable.sort {
        SectionSort::External => false,
        _ => !variable.constant,
    }
}

/// What a body has as locals.
fn is_of_body(variable: &DeclaredVariable) -> bool
    ensures { result ≡ is_of_body variable.now }
{
    match variable.sort {
        SectionSort::InOut | SectionSort::Temp => !variable.constant,
        _ => false,
    }
}

/// E16 at the line, where the locals of a body or a routine have so many values, and these are too many.
pub fn too_many_locals(line: u32, values: u32) -> Option<(Code, u32)>
    ensures { (n : ℕ) → values ≡ capped n → result ≡ least (limits.too_many_locals line n) }
{
    when(values > LIMIT, Code::E16, line)
}

/// So many values with those of the variables that a body has as locals, its in-outs and temporary variables; what is too large for a
/// number is the greatest one.
pub fn add_body_values(sizes: &TypeSizes, before: u32, variables: &[DeclaredVariable]) -> u32
    ensures { (s : Scope) → Measures sizes.now s → (n : ℕ) → before ≡ capped n → result ≡ capped (n + limits.all_values s (filter is_of_body variables.now)) }
{
    let mut sum = before;
    for variable in variables {
        if is_of_body(variable) {
            sum = sum.saturating_add(variable_values(sizes, variable));
        }
    }
    sum
}

/// E16 at the line, where the locals of a routine, without constants and externals, have more than 1,024 values.
pub fn locals_fault(
    sizes: &TypeSizes,
    line: u32,
    locals: &[DeclaredVariable],
) -> Option<(Code, u32)>
    ensures { (s : Scope) → Measures sizes.now s → result ≡ least (limits.too_many_locals line (limits.all_values s (filter is_local locals.now))) }
{
    let mut sum = 0u32;
    for variable in locals {
        if is_local(variable) {
            sum = sum.saturating_add(variable_values(sizes, variable));
        }
    }
    too_many_locals(line, sum)
}
