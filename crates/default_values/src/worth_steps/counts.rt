//! Steps of types, by those of structures.

ghost use Rattle.std.specs.Prelude.{◌≡◌, ℕ, ◌+◌, ◌<◌, ◌≤◌, nat_le, min, ◌-ℤ◌, List, map};
ghost use Rattle.st_tree.specs.declared.declaration.TypeDecl.{TypeDecl as AnEntry};
ghost use Rattle.st_rules.specs.Scope.{Scope as AScope, field_list};
ghost use Rattle.st_unit_rules.specs.Worth.{count_to};
ghost use Rattle.default_values.specs.worth_steps.Steps as words;
ghost use Rattle.default_values.specs.worth_steps.Private.Rounds as rounds;

use st_rules::{DeclaredField, TypeParts};
use st_types::StType;

/// What takes more steps than there may be has this number.
pub const TOO_MANY: u32 = 67;

/// The steps of a structure. What is not there has no fields.
pub fn count_at(structures: &[u32], number: usize) -> u32
    ensures { result ≡ words.count_at structures.now number }
{
    match structures.get(number) {
        Some(steps) => *steps,
        None => 1,
    }
}

fn one_more(steps: u32) -> u32
    ensures { result ≡ min (steps + 1) 67 }
{
    if steps < TOO_MANY {
        steps + 1
    } else {
        TOO_MANY
    }
}

/// Whether an array of these bounds has no elements.
fn has_none(low: &i128, high: &i128) -> bool
    ensures { result ≡ words.is_zero (count_to (high.now -ℤ low.now)) }
{
    let low = *low;
    let high = *high;
    high < low
}

/// The steps of a type.
pub fn steps_of(structures: &[u32], kind: &StType) -> u32
    ensures { (unit : AScope) (entries : List (AnEntry ℕ)) (k n : ℕ) → rounds.AreExact unit entries structures.now k → n < k → n ≤ 66 → words.takes_steps unit entries n kind.now ≡ nat_le result n }
{
    match kind {
        StType::Array(low, high, of) => {
            if has_none(low, high) {
                1
            } else {
                one_more(steps_of(structures, of.get()))
            }
        }
        StType::Structure(number) => count_at(structures, *number as usize),
        StType::Instance(_) => TOO_MANY,
        StType::Elementary(_) => 1,
        StType::Enumeration(_) => 1,
        StType::Reference(_) => 1,
        StType::Interface(_) => 1,
    }
}

/// Whether the type of a field is told, and takes no more steps.
fn field_fits(structures: &[u32], steps: u32, field: &DeclaredField) -> bool
    ensures { (unit : AScope) (entries : List (AnEntry ℕ)) (k : ℕ) → rounds.AreExact unit entries structures.now k → steps < k → steps ≤ 66 → result ≡ words.passes_told (words.takes_steps unit entries steps) field.now.kind }
{
    match &field.kind {
        Some(kind) => steps_of(structures, kind) <= steps,
        None => false,
    }
}

/// Whether the types of all fields are.
fn fields_fit(structures: &[u32], steps: u32, fields: &[DeclaredField]) -> bool
    ensures { (unit : AScope) (entries : List (AnEntry ℕ)) (k : ℕ) → rounds.AreExact unit entries structures.now k → steps < k → steps ≤ 66 → result ≡ words.pass_all_told (words.takes_steps unit entries steps) (map (λ f. f.kind) fields.now) }
{
    let mut left = fields;
    'fields: while let Some((field, behind)) = left.split_first() {
        if !field_fits(structures, steps, field) {
            return false;
        }
        left = behind;
    }
    true
}

/// Whether the types of all fields of a structure are.
pub fn parts_fit(structures: &[u32], steps: u32, parts: &TypeParts) -> bool
    ensures { (unit : AScope) (entries : List (AnEntry ℕ)) (k : ℕ) → rounds.AreExact unit entries structures.now k → steps < k → steps ≤ 66 → result ≡ words.pass_all_told (words.takes_steps unit entries steps) (map (λ f. f.kind) (field_list parts.now)) }
{
    match parts {
        TypeParts::Fields(fields) => fields_fit(structures, steps, fields.as_slice()),
        _ => true,
    }
}
