//! The parts of declarations.

ghost use Rattle.std.specs.Prelude.{◌≡◌, ◌+◌, IfOk};
ghost use Rattle.st_unit_rules.specs.declared_names.Declarations as declarations;

use plc_text::NoMemory;
use st_tree::{Resource, Section};

/// The sections of globals of a resource.
pub fn resource_globals(resource: &Option<Resource<u32>>) -> &[Section<u32>]
    ensures { result.now ≡ declarations.resource_globals resource.now }
{
    match resource {
        Some(resource) => resource.globals.as_slice(),
        None => &[],
    }
}

/// The number behind those of so many instances, the first of which has this number.
pub fn behind_instances(region: u32, count: usize) -> Result<u32, NoMemory>
    ensures { IfOk result (λ n. n ≡ region + count) }
{
    let Ok(count) = u32::try_from(count) else {
        return Err(NoMemory);
    };
    match region.checked_add(count) {
        Some(next) => Ok(next),
        None => Err(NoMemory),
    }
}
