//! Sizes of the types of a unit.

ghost use Rattle.std.specs.Prelude.{◌≡◌, ◌<◌, nat_lt, ◌||◌, if◌then◌else◌, length, Some, IfOk};
ghost use Rattle.st_rules.specs.Classes.{classes_in};
ghost use Rattle.st_rules.specs.Scope.{Scope};
ghost use Rattle.st_unit_rules.specs.Limits as limits;
ghost use Rattle.check_limits.specs.type_sizes.Size.{capped};
ghost use Rattle.check_limits.specs.type_sizes.Levels.{AreLevels, AreChainsOf};
ghost use Rattle.check_limits.specs.type_sizes.Sizes.{Measures};

use crate::type_sizes::levels::{Level, size_of};
use crate::type_sizes::rounds::next_level;
use crate::type_sizes::size::Size;
use class_tables::ClassTables;
use declared_symbols::class_chains::ClassChains;
use plc_text::NoMemory;
use st_rules::DeclaredNames;
use st_tree::Unit;
use st_types::StType;
use st_unit_rules::declared_names::has_fewer_dimensions;
use std::alloc::Global;

/// Steps of containment that are looked at: more than a type may have.
const STEPS: usize = 66;

/// How many values the types of a unit have, and how deep they are. What is told holds for types that contain themselves too.
#[derive(Drop)]
pub struct TypeSizes {
    levels: Vec<Level>,
}

/// Whether a type has more than 64 dimensions.
#[tactic(auto, using(crate::proofs::type_sizes::NumberLaws::not_fewer))]
pub fn has_many_dimensions(kind: &StType) -> bool
    ensures { result ≡ limits.has_many_dimensions (Some kind.now) }
{
    !has_fewer_dimensions(kind, 65)
}

/// The values of a type of this size, which has too many dimensions or not, if it is not too deep either.
fn counted(many: bool, size: Size) -> u32
    ensures { result ≡ (if many || nat_lt 65 size.steps then 0 else size.values) }
{
    if many || size.steps > 65 {
        return 0;
    }
    size.values
}

fn levels_of(
    alloc: Global,
    names: &DeclaredNames,
    chains: &ClassChains,
) -> Result<Vec<Level>, NoMemory>
    ensures long { IfOk result (λ levels. length levels.items ≡ 66) }
    ensures levels { IfOk result (λ levels. (s : Scope) → s.names ≡ names.now → AreChainsOf s chains.now → AreLevels s levels.items) }
{
    let mut levels: Vec<Level> = Vec::new(alloc);
    for _step in 0..STEPS {
        let level = next_level(alloc, &levels, names, chains)?;
        levels.push(level)?;
    }
    Ok(levels)
}

impl TypeSizes {
    /// The sizes of the types of a unit, from what it says of its names. It takes time and memory linear in what the unit declares.
    pub fn build(
        alloc: Global,
        unit: &Unit,
        classes: &ClassTables,
        names: &DeclaredNames,
    ) -> Result<TypeSizes, NoMemory>
        requires { classes.now ≡ unit.now }
        ensures { IfOk result (λ sizes. (s : Scope) → s.classes ≡ classes_in unit.now.decls → s.names ≡ names.now → Measures sizes s) }
    {
        let chains = chains_of(alloc, unit, classes, names)?;
        let levels = levels_of(alloc, names, &chains)?;
        Ok(TypeSizes { levels })
    }

    /// How many values a variable of the type has, or 2^32 - 1, if there are more; of a type that is too deep or has too many dimensions
    /// none are counted.
    pub fn values_of(&self, kind: &Option<StType>) -> u32
        ensures { (s : Scope) → Measures self.now s → result ≡ capped (limits.values_of s kind.now) }
    {
        match kind {
            Some(kind) => {
                let many = has_many_dimensions(kind);
                counted(many, size_of(&self.levels, STEPS, kind))
            }
            None => 0,
        }
    }

    /// Whether more than 64 steps of containment lead from the type to an array, a structure or an instance.
    pub fn is_too_deep(&self, kind: &StType) -> bool
        ensures { (s : Scope) → Measures self.now s → result ≡ limits.is_too_deep s kind.now }
    {
        self.has_depth(65, kind)
    }

    /// Whether more than 63 steps lead there: as many as a variable of a program may have, whose instance is one step more.
    pub fn is_too_deep_in_program(&self, kind: &StType) -> bool
        ensures { (s : Scope) → Measures self.now s → result ≡ limits.has_depth s limits.most_steps kind.now }
    {
        self.has_depth(64, kind)
    }

    /// Whether so many steps of containment lead from the type to an array, a structure or an instance.
    fn has_depth(&self, steps: u32, kind: &StType) -> bool
        ensures { (s : Scope) → Measures self.now s → steps < 66 → result ≡ limits.has_depth s steps kind.now }
    {
        steps < size_of(&self.levels, STEPS, kind).steps
    }
}

/// The chains of the classes, and of all that the unit declares as classes.
fn chains_of(
    alloc: Global,
    unit: &Unit,
    classes: &ClassTables,
    names: &DeclaredNames,
) -> Result<ClassChains, NoMemory>
    requires { classes.now ≡ unit.now }
    ensures { IfOk result (λ chains. (s : Scope) → s.classes ≡ classes_in unit.now.decls → s.names ≡ names.now → AreChainsOf s chains) }
{
    let Ok(count) = u32::try_from(names.classes.len()) else {
        return Err(NoMemory);
    };
    let chains = ClassChains::build(alloc, unit, classes, count)?;
    Ok(chains)
}
