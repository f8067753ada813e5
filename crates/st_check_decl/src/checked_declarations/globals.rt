//! Globals and configurations, whose rules were tried with the regions.

ghost use Rattle.std.specs.Prelude.{◌≡◌, [], IfErr, OnOk};
ghost use Rattle.st_unit_rules.specs.declared_names.Declarations.{a_configuration, a_global};
ghost use Rattle.st_unit_rules.specs.declaration_list.Written.{global_of};
ghost use Rattle.st_rules.specs.Faults.{least};
ghost use Rattle.st_unit_rules.specs.DeclarationRules as rules;
ghost use Rattle.st_unit_rules.specs.passing_laws.Passing.{At, faults_here, with_any, placed_at};
ghost use Rattle.st_check_decl.specs.checked_declarations.SoFar.{Breaks, Passed};

use crate::checked_declarations::so_far::{Bad, CheckedSoFar, settle};
use declared_graph::DeclaredGraph;
use plc_text::Code;
use st_rules::earlier;
use st_tree::Configuration;
use st_unit_rules::declaration_list::{Declared, WrittenName};
use std::alloc::Global;

/// Passes a global that breaks this among the regions before it.
pub fn pass_global(
    alloc: Global,
    graph: &DeclaredGraph,
    x: &mut CheckedSoFar,
    fault: Option<(Code, u32)>,
    name: &WrittenName<'_>,
) -> Result<(), Bad>
    ensures passed { OnOk result ((a : At) → Passed x.old graph.now.decls a → fault ≡ least (rules.global_faults graph.now.decls a.regions (global_of name.now)) → (faults_here graph.now.decls a (a_global (global_of name.now)) ≡ []) × Passed x.new graph.now.decls (with_any a (a_global (global_of name.now)))) }
    ensures bad { IfErr result (λ b. (a : At) → Passed x.old graph.now.decls a → fault ≡ least (rules.global_faults graph.now.decls a.regions (global_of name.now)) → Breaks b graph.now.decls a (a_global (global_of name.now))) }
{
    let declared = Declared::Global(*name);
    let common = x.before.common_fault(graph, &declared);
    settle(alloc, &mut x.before, &declared, earlier(common, fault))?;
    Ok(())
}

/// Passes a configuration that breaks this, before its globals.
pub fn pass_configuration(
    alloc: Global,
    graph: &DeclaredGraph,
    x: &mut CheckedSoFar,
    fault: Option<(Code, u32)>,
    configuration: &Configuration<u32>,
) -> Result<(), Bad>
    ensures passed { OnOk result ((a : At) → Passed x.old graph.now.decls a → fault ≡ least (rules.configuration_faults graph.now.decls (placed_at a (a_configuration configuration.now)) configuration.now) → (faults_here graph.now.decls a (a_configuration configuration.now) ≡ []) × Passed x.new graph.now.decls (with_any a (a_configuration configuration.now))) }
    ensures bad { IfErr result (λ b. (a : At) → Passed x.old graph.now.decls a → fault ≡ least (rules.configuration_faults graph.now.decls (placed_at a (a_configuration configuration.now)) configuration.now) → Breaks b graph.now.decls a (a_configuration configuration.now)) }
{
    let declared = Declared::Configuration(configuration);
    let common = x.before.common_fault(graph, &declared);
    settle(alloc, &mut x.before, &declared, earlier(common, fault))?;
    Ok(())
}
