//! The configurations of a unit, and the tasks of its program.

ghost use Rattle.std.specs.Prelude.{◌≡◌, ◌∷◌, [], ◌++◌, true, IfOk, OnOk};
ghost use Rattle.std.specs.List.{list_all};
ghost use Rattle.st_unit_rules.specs.declared_names.Declarations.{configurations_in};
ghost use Rattle.check_configurations.specs.checked_tasks.Tasks.{values_fit};
ghost use Rattle.st_unit_rules.specs.Checked.{Each, TypedTask};
ghost use Rattle.st_check_decl.specs.unit_check.Private.Configured.{configurations_of};

use check_configurations::check_tasks;
use check_regions::list_regions;
use plc_text::{Items, NoMemory};
use st_tree::{Configuration, Decl, TaskDecl, TaskSpec};
use std::alloc::Global;

fn add_configuration<'a>(
    list: &mut Vec<&'a Configuration<u32>>,
    decl: &'a Decl<u32>,
) -> Result<(), NoMemory>
    ensures { OnOk result (configurations_of list.new.items ≡ configurations_of list.old.items ++ configurations_in (decl.now ∷ [])) }
{
    if let Decl::Configuration(configuration) = decl {
        list.push(configuration)?;
    }
    Ok(())
}

/// The configurations of a unit, in the order of the text.
pub fn list_configurations(
    alloc: Global,
    decls: &[Decl<u32>],
) -> Result<Vec<&Configuration<u32>>, NoMemory>
    ensures { IfOk result (λ list. configurations_of list.items ≡ configurations_in decls.now) }
{
    let mut list = Vec::new(alloc);
    for decl in decls {
        add_configuration(&mut list, decl)?;
    }
    Ok(list)
}

/// The tasks of the checked program, from those that are written, whose settings fit.
pub fn typed_tasks(
    alloc: Global,
    decls: &[Decl<u32>],
    tasks: &[TaskSpec],
) -> Result<Items<TaskDecl>, NoMemory>
    requires { list_all (values_fit decls.now) tasks.now ≡ true }
    ensures { IfOk result (λ made. Each (TypedTask decls.now) tasks.now made) }
{
    let regions = list_regions(alloc, decls)?;
    match check_tasks(alloc, &regions, tasks)? {
        Some(made) => Ok(made),
        None => unreachable!(),
    }
}
