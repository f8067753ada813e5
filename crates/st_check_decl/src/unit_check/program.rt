//! The checked program, put together.

ghost use Rattle.std.specs.Prelude.{◌≡◌, IfErr, IfOk};
ghost use Rattle.st_unit_rules.specs.passing_laws.Passing.{AllDeclsGood, no_declarations};
ghost use Rattle.st_unit_rules.specs.passing_laws.PassingLaws.{all_of};
ghost use Rattle.st_unit_rules.specs.Checked.{IsChecked};
ghost use Rattle.st_unit_rules.specs.RefusalLaws.{IsGood};
ghost use Rattle.st_unit_rules.specs.UnitRefusal.{UnitRefusal};
ghost use Rattle.st_check_decl.specs.unit_check.Checking.{OnRefused};
ghost use Rattle.st_check_decl.specs.unit_check.Private.Program.{IsMadeOf};
ghost use Rattle.st_check_decl.specs.unit_check.Private.Progress.{Reached};

use crate::checked_declarations::{CheckedSoFar, Trees};
use crate::unit_check::configured::{list_configurations, typed_tasks};
use crate::unit_check::progress::Progress;
use crate::unit_check::refused::no_configuration;
use global_rules::CheckedRegions;
use plc_text::{Denied, Items};
use st_tree::{Decl, Program, TaskDecl};
use std::alloc::Global;

/// The program of what was checked, with these tasks.
fn program_of(progress: Progress, tasks: Items<TaskDecl>) -> Program
    ensures { IsMadeOf result progress tasks }
{
    let (declarations, regions) = progress.into_parts();
    let CheckedSoFar { before: _, trees } = declarations;
    let CheckedRegions { taken: _, regions } = regions;
    let Trees {
        types,
        classes,
        interfaces,
        functions,
        programs,
    } = trees;
    Program {
        types,
        classes,
        interfaces,
        functions,
        programs,
        regions,
        tasks,
    }
}

/// The checked program of a unit whose declarations are all good, and were checked; else, where there is no CONFIGURATION, its refusal.
pub fn finish(alloc: Global, decls: &[Decl<u32>], progress: Progress) -> Result<Program, Denied>
    requires good { AllDeclsGood decls.now no_declarations decls.now }
    requires reached { Reached progress decls.now (all_of decls.now) }
    ensures ok { IfOk result (λ p. IsGood decls.now × IsChecked decls.now p) }
    ensures err { IfErr result (λ e. OnRefused e (λ r. UnitRefusal decls.now r.code r.declaration r.line)) }
{
    let list = list_configurations(alloc, decls)?;
    let Some((configuration, _)) = list.split_first() else {
        return Err(no_configuration(alloc));
    };
    let tasks = typed_tasks(alloc, decls, configuration.tasks.as_slice())?;
    Ok(program_of(progress, tasks))
}
