//! The tasks of a configuration in a checked program.

ghost use Rattle.std.specs.Prelude.{◌≡◌, List, ℕ, map, IfOk, IfSome};
ghost use Rattle.std.specs.List.{list_all};
ghost use Rattle.std.specs.Option.{is_some};
ghost use Rattle.st_tree.specs.declared.unit.Decl.{Decl};
ghost use Rattle.st_unit_rules.specs.Checked.{Each, TypedTask, unit_regions};
ghost use Rattle.check_regions.specs.unit_regions.Listed.{region_as};
ghost use Rattle.check_configurations.specs.checked_tasks.Tasks.{values_fit};
ghost use Rattle.check_configurations.specs.checked_tasks.Private.Made.{ChecksTask};

use crate::checked_tasks::groups::TaskRegions;
use crate::checked_tasks::settings::setting_value;
use check_regions::UnitRegion;
use plc_text::{Items, NoMemory, Text};
use st_tree::{TaskDecl, TaskSpec};
use std::alloc::Global;

/// The task, if its settings fit.
fn check_task(
    alloc: Global,
    groups: &TaskRegions,
    task: &TaskSpec,
) -> Result<Option<TaskDecl>, NoMemory>
    ensures { IfOk result (λ made. ChecksTask groups.now task.now made) }
{
    let settings = task.settings.as_slice();
    let Some(interval) = setting_value(settings, "INTERVAL") else {
        return Ok(None);
    };
    let Some(priority) = setting_value(settings, "PRIORITY") else {
        return Ok(None);
    };
    let programs = groups.numbers_of(alloc, &task.name.text)?;
    let name = Text::copy(alloc, task.name.text.as_str())?;
    Ok(Some(TaskDecl {
        name,
        interval,
        priority,
        programs,
    }))
}

/// The tasks of a checked program, from those that are written and the regions of the unit; none where the interval or the priority of one
/// does not fit 32 bits, which breaks a rule. It takes time linear in both.
pub fn check_tasks(
    alloc: Global,
    regions: &[UnitRegion<'_>],
    tasks: &[TaskSpec],
) -> Result<Option<Items<TaskDecl>>, NoMemory>
    ensures fits { IfOk result (λ made. (decls : List (Decl ℕ)) → is_some made ≡ list_all (values_fit decls) tasks.now) }
    ensures typed { IfOk result (λ made. (decls : List (Decl ℕ)) → map region_as regions.now ≡ unit_regions decls → IfSome made (Each (TypedTask decls) tasks.now)) }
{
    let groups = TaskRegions::build(alloc, regions)?;
    let mut made = Items::new(alloc);
    for task in tasks {
        match check_task(alloc, &groups, task)? {
            Some(checked) => made.push(checked)?,
            None => return Ok(None),
        }
    }
    Ok(Some(made))
}
