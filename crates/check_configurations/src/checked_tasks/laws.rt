//! Settings that break no rule.

ghost use Rattle.std.specs.Prelude.{◌≡◌, List, [], ℕ, true};
ghost use Rattle.std.specs.List.{list_all};
ghost use Rattle.st_tree.specs.declared.configuration.Configuration.{Configuration};
ghost use Rattle.st_tree.specs.declared.configuration.TaskSpec.{TaskSpec};
ghost use Rattle.st_tree.specs.declared.unit.Decl.{Decl};
ghost use Rattle.st_unit_rules.specs.ConfigurationRules.{settings_faults, tasks_and_instances};
ghost use Rattle.check_configurations.specs.checked_tasks.Tasks.{values_fit};

/// Where the settings of a task break no rule, those that count fit 32 bits; so `check_tasks` gives the tasks of a configuration whose
/// tasks and instances break none.
pub fn setting_laws()
    ensures task { (decls : List (Decl ℕ)) (t : TaskSpec) → settings_faults [] t.settings ≡ [] → values_fit decls t ≡ true }
    ensures configuration { (decls : List (Decl ℕ)) (programs : List (List ℕ)) (c : Configuration ℕ) → tasks_and_instances programs c ≡ [] → list_all (values_fit decls) c.tasks ≡ true }
{}
