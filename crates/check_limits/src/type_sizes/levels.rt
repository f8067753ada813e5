//! Sizes of types by what structures and instances have within so many steps.

ghost use Rattle.std.specs.Prelude.{◌≡◌, ◌≤◌, ◌-◌, length};
ghost use Rattle.st_rules.specs.Scope.{Scope};
ghost use Rattle.check_limits.specs.type_sizes.Levels as tables;
ghost use Rattle.check_limits.specs.type_sizes.Levels.{AreLevels, IsSize};

use crate::type_sizes::size::{Size, array, instance, nothing, simple, structure};
use st_types::StType;

/// Structures by the number of their entry of TYPE, and instances by the number of their class.
#[derive(Drop)]
pub struct Level {
    pub structures: Vec<Size>,
    pub instances: Vec<Size>,
}

fn size_or(sizes: &[Size], number: u32, other: Size) -> Size
    ensures { result ≡ tables.size_or sizes.now number other }
{
    match sizes.get(number as usize) {
        Some(size) => *size,
        None => other,
    }
}

/// The size of a structure at a level.
fn structure_at(levels: &[Level], level: usize, number: u32) -> Size
    ensures { result ≡ tables.structure_there levels.now level number }
{
    match levels.get(level) {
        Some(level) => size_or(&level.structures, number, structure(nothing())),
        None => nothing(),
    }
}

/// The size of an instance at a level.
fn instance_at(levels: &[Level], level: usize, class: u32) -> Size
    ensures { result ≡ tables.instance_there levels.now level class }
{
    match levels.get(level) {
        Some(level) => size_or(&level.instances, class, instance(nothing())),
        None => nothing(),
    }
}

/// The size of a type within so many steps.
pub fn size_of(levels: &[Level], steps: usize, kind: &StType) -> Size
    ensures { (s : Scope) → AreLevels s levels.now → steps ≤ length levels.now → IsSize s steps result kind.now }
{
    if steps == 0 {
        return nothing();
    }
    match kind {
        StType::Array(low, high, of) => array(low, high, size_of(levels, steps - 1, of.get())),
        StType::Structure(number) => structure_at(levels, steps - 1, *number),
        StType::Instance(class) => instance_at(levels, steps - 1, *class),
        StType::Elementary(_) => simple(),
        StType::Enumeration(_) => simple(),
        StType::Reference(_) => simple(),
        StType::Interface(_) => simple(),
    }
}
