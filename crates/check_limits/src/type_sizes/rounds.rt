//! One level of sizes after the other, each by the levels before it.

ghost use Rattle.std.specs.Prelude.{◌≡◌, ◌∷◌, [], ◌++◌, ℕ, suc, List, map, filter, flat_map, length, IfOk};
ghost use Rattle.st_types.specs.declared.st_type.StType.{StType as AType};
ghost use Rattle.st_rules.specs.Scope as scope;
ghost use Rattle.st_rules.specs.Scope.{Scope};
ghost use Rattle.st_unit_rules.specs.Limits.{kinds_told};
ghost use Rattle.check_limits.specs.type_sizes.Levels.{AreLevels, IsLevel, Tells, AreChainsOf};
ghost use Rattle.check_limits.specs.type_sizes.Private.Rounds.{AreStructures, AreOwn, AreTotals, size_there, total_behind, total_at, instance_from};

use crate::type_sizes::levels::{Level, size_of};
use crate::type_sizes::size::{Size, both, instance, nothing, structure};
use declared_symbols::class_chains::{Cell, ClassChains};
use plc_text::NoMemory;
use st_rules::{
    DeclaredClass, DeclaredField, DeclaredNames, DeclaredVariable, TypeParts, is_instance_sort,
};
use st_types::StType;
use std::alloc::Global;

/// With one more thing of a type, if that is told.
fn with_kind(levels: &[Level], so_far: Size, kind: &Option<StType>) -> Size
    ensures { (s : Scope) (ts : List AType) → AreLevels s levels.now → Tells s (length levels.now) so_far ts → Tells s (length levels.now) result (ts ++ kinds_told s (kind.now ∷ [])) }
{
    match kind {
        Some(kind) => both(so_far, size_of(levels, levels.len(), kind)),
        None => so_far,
    }
}

fn field_list(part: &TypeParts) -> &[DeclaredField]
    ensures { result.now ≡ scope.field_list part.now }
{
    match part {
        TypeParts::Fields(fields) => fields.as_slice(),
        _ => &[],
    }
}

/// What the fields of a structure have together.
fn fields_size(levels: &[Level], fields: &[DeclaredField]) -> Size
    ensures { (s : Scope) → AreLevels s levels.now → Tells s (length levels.now) result (kinds_told s (map (λ f. f.kind) fields.now)) }
{
    let mut size = nothing();
    for field in fields {
        size = with_kind(levels, size, &field.kind);
    }
    size
}

fn is_of_instance(variable: &DeclaredVariable) -> bool
    ensures { result ≡ scope.is_of_instance variable.now }
{
    is_instance_sort(variable.sort) && !variable.constant
}

/// With one more variable, if each instance has it.
fn with_variable(levels: &[Level], so_far: Size, variable: &DeclaredVariable) -> Size
    ensures { (s : Scope) (ts : List AType) → AreLevels s levels.now → Tells s (length levels.now) so_far ts → Tells s (length levels.now) result (ts ++ kinds_told s (map (λ v. v.kind) (filter scope.is_of_instance (variable.now ∷ [])))) }
{
    if is_of_instance(variable) {
        with_kind(levels, so_far, &variable.kind)
    } else {
        so_far
    }
}

/// What the variables have together that each instance has.
fn variables_size(levels: &[Level], variables: &[DeclaredVariable]) -> Size
    ensures { (s : Scope) → AreLevels s levels.now → Tells s (length levels.now) result (kinds_told s (map (λ v. v.kind) (filter scope.is_of_instance variables.now))) }
{
    let mut size = nothing();
    for variable in variables {
        size = with_variable(levels, size, variable);
    }
    size
}

/// The sizes of structures, by the number of their entry of TYPE.
fn structures_of(
    alloc: Global,
    levels: &[Level],
    parts: &[TypeParts],
) -> Result<Vec<Size>, NoMemory>
    ensures { IfOk result (λ sizes. (s : Scope) → AreLevels s levels.now → s.names.parts ≡ parts.now → AreStructures s (length levels.now) sizes.items) }
{
    let mut sizes = Vec::new(alloc);
    for part in parts {
        sizes.push(structure(fields_size(levels, field_list(part))))?;
    }
    Ok(sizes)
}

/// What each class has by itself.
fn own_sizes(
    alloc: Global,
    levels: &[Level],
    classes: &[DeclaredClass],
) -> Result<Vec<Size>, NoMemory>
    ensures { IfOk result (λ sizes. (s : Scope) → AreLevels s levels.now → s.names.classes ≡ classes.now → AreOwn s (length levels.now) sizes.items) }
{
    let mut sizes = Vec::new(alloc);
    for class in classes {
        sizes.push(variables_size(levels, class.variables.as_slice()))?;
    }
    Ok(sizes)
}

fn size_at(sizes: &[Size], number: u32) -> Size
    ensures { result ≡ size_there sizes.now number }
{
    match sizes.get(number as usize) {
        Some(size) => *size,
        None => nothing(),
    }
}

fn behind(totals: &[Size], cell: Option<u32>) -> Size
    ensures { result ≡ total_behind totals.now cell }
{
    match cell {
        Some(number) => size_at(totals, number),
        None => nothing(),
    }
}

/// What the classes from a cell on have together.
fn total_of(own: &[Size], totals: &[Size], cell: &Cell) -> Size
    ensures { result ≡ total_at own.now totals.now cell.now }
{
    both(size_at(own, cell.class), behind(totals, cell.behind))
}

/// What the classes from each cell on have together.
fn totals_of(alloc: Global, own: &[Size], cells: &[Cell]) -> Result<Vec<Size>, NoMemory>
    ensures { IfOk result (λ totals. (s : Scope) (r : ℕ) → AreOwn s r own.now → AreTotals s r cells.now totals.items) }
{
    let mut totals: Vec<Size> = Vec::new(alloc);
    for cell in cells {
        let size = total_of(own, &totals, cell);
        totals.push(size)?;
    }
    Ok(totals)
}

/// The sizes of instances, by the number of their class.
fn instances_of(alloc: Global, totals: &[Size], firsts: &[u32]) -> Result<Vec<Size>, NoMemory>
    ensures { IfOk result (λ sizes. sizes.items ≡ map (instance_from totals.now) firsts.now) }
{
    let mut sizes = Vec::new(alloc);
    for first in firsts {
        sizes.push(instance(size_at(totals, *first)))?;
    }
    Ok(sizes)
}

/// The level behind these.
pub fn next_level(
    alloc: Global,
    levels: &[Level],
    names: &DeclaredNames,
    chains: &ClassChains,
) -> Result<Level, NoMemory>
    ensures { IfOk result (λ level. (s : Scope) → AreLevels s levels.now → s.names ≡ names.now → AreChainsOf s chains.now → IsLevel s (suc (length levels.now)) level) }
{
    let structures = structures_of(alloc, levels, names.parts.as_slice())?;
    let own = own_sizes(alloc, levels, names.classes.as_slice())?;
    let totals = totals_of(alloc, &own, &chains.cells)?;
    let instances = instances_of(alloc, &totals, &chains.firsts)?;
    Ok(Level {
        structures,
        instances,
    })
}
