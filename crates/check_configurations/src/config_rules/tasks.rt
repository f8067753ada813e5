//! Tasks and program instances.

ghost use Rattle.std.specs.Prelude.{◌≡◌, [], flat_map, IfOk};
ghost use Rattle.std.specs.List.{list_any};
ghost use Rattle.st_rules.specs.Faults.{least};
ghost use Rattle.st_rules.specs.Numbered.{each_numbered};
ghost use Rattle.st_unit_rules.specs.ConfigurationRules as rules;
ghost use Rattle.st_unit_rules.specs.NameRules.{texts};
ghost use Rattle.check_names.specs.name_spaces.Held.{Holds};
ghost use Rattle.check_names.specs.name_spaces.NamesIn.{names_of};
ghost use Rattle.check_configurations.specs.config_rules.Private.Names.{task_names, tasks_run};

use crate::config_rules::settings::settings_fault;
use check_names::name_spaces::HeldNames;
use plc_text::{Code, NoMemory};
use st_rules::{earlier, when};
use st_tree::{Configuration, InstanceSpec, Name, TaskSpec};
use std::alloc::Global;

fn hold_names(alloc: Global, names: &[&Name]) -> Result<HeldNames, NoMemory>
    ensures { IfOk result (λ held. Holds held (texts (names_of names.now))) }
{
    let mut held = HeldNames::new(alloc);
    for name in names {
        held.hold(alloc, &name.text)?;
    }
    Ok(held)
}

fn hold_tasks(alloc: Global, tasks: &[TaskSpec]) -> Result<HeldNames, NoMemory>
    ensures { IfOk result (λ held. Holds held (task_names tasks.now)) }
{
    let mut held = HeldNames::new(alloc);
    for task in tasks {
        held.hold(alloc, &task.name.text)?;
    }
    Ok(held)
}

/// The tasks with which the instances run.
fn hold_run(alloc: Global, instances: &[InstanceSpec]) -> Result<HeldNames, NoMemory>
    ensures { IfOk result (λ held. Holds held (tasks_run instances.now)) }
{
    let mut held = HeldNames::new(alloc);
    for instance in instances {
        held.hold(alloc, &instance.task.text)?;
    }
    Ok(held)
}

/// Whether one of the instances runs with the task.
fn is_run(run: &HeldNames, instances: &[InstanceSpec], task: &TaskSpec) -> bool
    requires { Holds run.now (tasks_run instances.now) }
    ensures { result ≡ list_any (rules.runs_in task.now.name.text) instances.now }
{
    run.has(&task.name.text)
}

/// What is bad of a task behind so many.
fn task_fault(
    alloc: Global,
    run: &HeldNames,
    instances: &[InstanceSpec],
    before: usize,
    task: &TaskSpec,
) -> Result<Option<(Code, u32)>, NoMemory>
    requires { Holds run.now (tasks_run instances.now) }
    ensures { IfOk result (λ f. f ≡ least (rules.task_faults instances.now before task.now)) }
{
    let setting = settings_fault(alloc, task.settings.as_slice())?;
    let idle = when(!is_run(run, instances, task), Code::E15, task.line);
    let many = when(before == 16, Code::E16, task.line);
    Ok(earlier(earlier(setting, idle), many))
}

fn tasks_fault(
    alloc: Global,
    run: &HeldNames,
    instances: &[InstanceSpec],
    tasks: &[TaskSpec],
) -> Result<Option<(Code, u32)>, NoMemory>
    requires { Holds run.now (tasks_run instances.now) }
    ensures { IfOk result (λ f. f ≡ least (each_numbered (rules.task_faults instances.now) 0 tasks.now)) }
{
    let mut found = None;
    for (i, task) in tasks.iter().enumerate() {
        found = earlier(found, task_fault(alloc, run, instances, i, task)?);
    }
    Ok(found)
}

fn not_among_tasks(held: &HeldNames, tasks: &[TaskSpec], name: &Name) -> Option<(Code, u32)>
    requires { Holds held.now (task_names tasks.now) }
    ensures { result ≡ least (rules.not_among (task_names tasks.now) name.now) }
{
    when(!held.has(&name.text), Code::E05, name.line)
}

fn not_among_programs(held: &HeldNames, programs: &[&Name], name: &Name) -> Option<(Code, u32)>
    requires { Holds held.now (texts (names_of programs.now)) }
    ensures { result ≡ least (rules.not_among (texts (names_of programs.now)) name.now) }
{
    when(!held.has(&name.text), Code::E05, name.line)
}

fn instances_fault(
    alloc: Global,
    tasks: &[TaskSpec],
    programs: &[&Name],
    instances: &[InstanceSpec],
) -> Result<Option<(Code, u32)>, NoMemory>
    ensures { IfOk result (λ f. f ≡ least (flat_map (rules.instance_faults (task_names tasks.now) (texts (names_of programs.now))) instances.now)) }
{
    let held_tasks = hold_tasks(alloc, tasks)?;
    let held_programs = hold_names(alloc, programs)?;
    let mut found = None;
    for instance in instances {
        let task = not_among_tasks(&held_tasks, tasks, &instance.task);
        let program = not_among_programs(&held_programs, programs, &instance.program);
        found = earlier(found, earlier(task, program));
    }
    Ok(found)
}

/// The least rule that the tasks and instances of a configuration break: E15 of settings and of tasks that run nothing, E13, E16 for the
/// 17th task, and E05 for tasks and programs that are not found. The programs are those of the unit, by their names.
pub fn tasks_and_instances(
    alloc: Global,
    programs: &[&Name],
    configuration: &Configuration<u32>,
) -> Result<Option<(Code, u32)>, NoMemory>
    ensures { IfOk result (λ f. f ≡ least (rules.tasks_and_instances (texts (names_of programs.now)) configuration.now)) }
{
    let instances = configuration.instances.as_slice();
    let tasks = configuration.tasks.as_slice();
    let run = hold_run(alloc, instances)?;
    let of_tasks = tasks_fault(alloc, &run, instances, tasks)?;
    let of_instances = instances_fault(alloc, tasks, programs, instances)?;
    Ok(earlier(of_tasks, of_instances))
}
