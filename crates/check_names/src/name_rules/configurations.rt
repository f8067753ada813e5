//! The names of tasks and program instances.

ghost use Rattle.std.specs.Prelude.{◌≡◌, ◌∷◌, [], ◌++◌, ◌||◌, map, flat_map, ℕ, List, IfOk, OnOk};
ghost use Rattle.st_tree.specs.declared.name.Name.{Name as AName};
ghost use Rattle.st_rules.specs.Faults.{earlier, least};
ghost use Rattle.st_unit_rules.specs.NameRules as rules;
ghost use Rattle.st_unit_rules.specs.NameRules.{texts};
ghost use Rattle.check_names.specs.name_spaces.Held.{Holds};
ghost use Rattle.check_names.specs.name_spaces.NamesIn.{names_of};
ghost use Rattle.check_names.specs.name_rules.Configurations.{instance_names, task_names, conversion_of_instance, own_texts};

use crate::name_rules::spaces::{conversion_fault, space_fault};
use crate::name_spaces::{HeldNames, section_names};
use plc_text::{Code, NoMemory};
use st_rules::{earlier, when};
use st_tree::{Configuration, InstanceSpec, Name, Section, TaskSpec};
use st_unit_rules::declared_names::resource_globals;
use std::alloc::Global;

/// Holds names.
pub fn hold_names(alloc: Global, held: &mut HeldNames, names: &[&Name]) -> Result<(), NoMemory>
    ensures { OnOk result ((before : List (List ℕ)) → Holds held.old before → Holds held.new (before ++ texts (names_of names.now))) }
{
    for name in names {
        held.hold(alloc, &name.text)?;
    }
    Ok(())
}

fn hold_sections(
    alloc: Global,
    held: &mut HeldNames,
    sections: &[Section<u32>],
) -> Result<(), NoMemory>
    ensures { OnOk result ((before : List (List ℕ)) → Holds held.old before → Holds held.new (before ++ texts (rules.section_names sections.now))) }
{
    let names = section_names(alloc, sections)?;
    hold_names(alloc, held, &names)?;
    Ok(())
}

/// The names of a configuration and its globals.
fn own_names(alloc: Global, configuration: &Configuration<u32>) -> Result<HeldNames, NoMemory>
    ensures { IfOk result (λ held. Holds held (own_texts configuration.now)) }
{
    let mut held = HeldNames::new(alloc);
    held.hold(alloc, &configuration.name.text)?;
    hold_sections(alloc, &mut held, configuration.globals.as_slice())?;
    hold_sections(alloc, &mut held, resource_globals(&configuration.resource))?;
    Ok(held)
}

fn either(a: bool, b: bool) -> bool
    ensures { result ≡ (a || b) }
{
    a || b
}

/// The first of what was found and of one more instance, whose name is held then.
fn instance_fault(
    alloc: Global,
    before: &HeldNames,
    own: &mut HeldNames,
    found: Option<(Code, u32)>,
    name: &Name,
) -> Result<Option<(Code, u32)>, NoMemory>
    ensures { IfOk result (λ f. (names mine : List (List ℕ)) (rest : List AName) → Holds before.now names → Holds own.old mine → Holds own.new (mine ++ name.now.text ∷ [])
        × (earlier f (least (rules.declared_twice (names ++ (mine ++ name.now.text ∷ [])) rest)) ≡ earlier found (least (rules.declared_twice (names ++ mine) (name.now ∷ rest))))) }
{
    let again = own.hold(alloc, &name.text)?;
    let twice = either(before.has(&name.text), again);
    Ok(earlier(found, when(twice, Code::E04, name.line)))
}

/// E04 at the least line of an instance whose name stands before it, in the unit or in the configuration.
fn instances_fault(
    alloc: Global,
    before: &HeldNames,
    own: HeldNames,
    instances: &[InstanceSpec],
) -> Result<Option<(Code, u32)>, NoMemory>
    ensures { IfOk result (λ f. (names mine : List (List ℕ)) → Holds before.now names → Holds own mine → f ≡ least (rules.declared_twice (names ++ mine) (instance_names instances.now))) }
{
    let mut own = own;
    let mut found = None;
    for instance in instances {
        found = instance_fault(alloc, before, &mut own, found, &instance.name)?;
    }
    Ok(found)
}

/// E04 at the least line of an instance with the name of a conversion.
fn conversions_fault(instances: &[InstanceSpec]) -> Option<(Code, u32)>
    ensures { result ≡ least (flat_map conversion_of_instance instances.now) }
{
    let mut found = None;
    for instance in instances {
        found = earlier(found, conversion_fault(&instance.name));
    }
    found
}

fn tasks_fault(alloc: Global, tasks: &[TaskSpec]) -> Result<Option<(Code, u32)>, NoMemory>
    ensures { IfOk result (λ f. f ≡ least (rules.space_faults (task_names tasks.now))) }
{
    let mut names: Vec<&Name> = Vec::new(alloc);
    for task in tasks {
        names.push(&task.name)?;
    }
    let fault = space_fault(alloc, &names)?;
    Ok(fault)
}

/// E04 of a configuration: instances among the names of the unit, which are held, and of the configuration, and tasks in their own space.
pub fn configuration_name_fault(
    alloc: Global,
    before: &HeldNames,
    configuration: &Configuration<u32>,
) -> Result<Option<(Code, u32)>, NoMemory>
    ensures { IfOk result (λ f. (names : List (List ℕ)) → Holds before.now names → f ≡ least (rules.configuration_name_faults names configuration.now)) }
{
    let instances = configuration.instances.as_slice();
    let own = own_names(alloc, configuration)?;
    let twice = instances_fault(alloc, before, own, instances)?;
    let conversion = conversions_fault(instances);
    let tasks = tasks_fault(alloc, configuration.tasks.as_slice())?;
    Ok(earlier(earlier(twice, conversion), tasks))
}
