//! What instances of a program take.

ghost use Rattle.std.specs.Prelude.{◌≡◌, ◌+◌, Bool, suc, map, filter, ℕ};
ghost use Rattle.st_rules.specs.Scope.{Scope, is_of_instance};
ghost use Rattle.st_unit_rules.specs.Limits as limits;
ghost use Rattle.check_limits.specs.type_sizes.Size.{capped};
ghost use Rattle.check_limits.specs.type_sizes.Sizes.{Measures};

use check_limits::TypeSizes;
use st_rules::DeclaredVariable;
use st_tree::{Section, SectionSort};

/// What each instance of a program takes.
#[derive(Clone, Copy)]
pub struct InstancedProgram<'a> {
    /// The values of an instance, as `program_values` counts them.
    pub values: u32,
    /// The sections of the program.
    pub sections: &'a [Section<u32>],
}

/// What each instance has as its own.
fn is_of_instance(variable: &DeclaredVariable) -> bool
    ensures { result ≡ is_of_instance variable.now }
{
    match variable.sort {
        SectionSort::Var | SectionSort::Input | SectionSort::Output => !variable.constant,
        _ => false,
    }
}

/// The values of an instance of a program with these locals, one more than its variables have; 2^32 - 1, if there are more.
pub fn program_values(sizes: &TypeSizes, locals: &[DeclaredVariable]) -> u32
    ensures { (s : Scope) → Measures sizes.now s → result ≡ capped (suc (limits.sum_of s (map (λ v. limits.values_of s v.kind) (filter is_of_instance locals.now)))) }
{
    let mut sum = 1u32;
    for variable in locals {
        if is_of_instance(variable) {
            sum = sum.saturating_add(sizes.values_of(&variable.kind));
        }
    }
    sum
}
