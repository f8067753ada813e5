//! A law of worths and steps.

ghost use Rattle.std.specs.Prelude.{ℕ, List};
ghost use Rattle.st_tree.specs.declared.declaration.TypeDecl.{TypeDecl as AnEntry};
ghost use Rattle.st_rules.specs.Scope.{Scope as AScope};
ghost use Rattle.default_values.specs.worth_steps.StepLaws.{StepLaws};

/// Within fewer steps than its type takes, nothing is worth anything, and with more it is worth the same.
pub fn step_laws()
    ensures { (unit : AScope) (entries : List (AnEntry ℕ)) → StepLaws unit entries }
{}
