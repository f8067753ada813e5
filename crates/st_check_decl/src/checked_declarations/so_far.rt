//! What is known of the declarations that were checked.

ghost use Rattle.std.specs.Prelude.{◌≡◌, ◌∷◌, [], ◌++◌, ℕ, List, Some, None, IfErr, OnOk};
ghost use Rattle.st_tree.specs.declared.unit.Decl.{Decl};
ghost use Rattle.st_unit_rules.specs.declared_names.Declarations.{Declaration, name_of};
ghost use Rattle.st_unit_rules.specs.declaration_list.Listed.{declared_as};
ghost use Rattle.check_names.specs.declarations_before.Before.{StandsBefore};
ghost use Rattle.st_unit_rules.specs.passing_laws.Passing.{no_declarations};
ghost use Rattle.st_check_decl.specs.checked_declarations.SoFar.{Says, Passed};

use crate::checked_declarations::trees::Trees;
use check_names::declarations_before::DeclarationsBefore;
use plc_text::{Code, NoMemory, Text};
use st_unit_rules::declaration_list::Declared;
use std::alloc::Global;

/// Why the declarations of a unit are not all good.
#[derive(Drop)]
pub enum Bad {
    /// The name of the first bad declaration, the least rule that it breaks, and its least line.
    Rule(Text, Code, u32),
    NoMemory,
}

impl From<NoMemory> for Bad {
    ghost use Rattle.std.specs.Prelude.{◌≡◌};
    ghost use Rattle.st_check_decl.specs.declared.checked_declarations.so_far.Bad.TheVariants as bad;

    ghost from_gives = { λ _ b. b ≡ bad.NoMemory };

    fn from(_want: NoMemory) -> Bad {
        Bad::NoMemory
    }
}

/// What stands before the next declaration, and the typed trees.
#[derive(Drop)]
pub struct CheckedSoFar {
    pub before: DeclarationsBefore,
    pub trees: Trees,
}

impl CheckedSoFar {
    /// Nothing was checked.
    pub fn none(alloc: Global) -> CheckedSoFar
        ensures { (decls : List (Decl ℕ)) → Passed result decls no_declarations }
    {
        CheckedSoFar {
            before: DeclarationsBefore::none(alloc),
            trees: Trees::none(alloc),
        }
    }
}

/// Where a rule is broken, that a declaration of this name breaks it.
fn broken_rule(alloc: Global, declared: &Declared<'_>, code: Code, line: u32) -> Bad
    ensures { Says result (name_of (declared_as declared.now)) (Some (code, line)) }
{
    match Text::copy(alloc, declared.name().text.as_str()) {
        Ok(name) => Bad::Rule(name, code, line),
        Err(_) => Bad::NoMemory,
    }
}

/// Counts a declaration that breaks no rule, and holds its name; else says what it breaks.
pub fn settle(
    alloc: Global,
    before: &mut DeclarationsBefore,
    declared: &Declared<'_>,
    fault: Option<(Code, u32)>,
) -> Result<(), Bad>
    ensures good { OnOk result (fault ≡ None) }
    ensures passed { OnOk result ((earlier : List Declaration) (names : List (List ℕ)) → StandsBefore before.old earlier names → StandsBefore before.new (earlier ++ declared_as declared.now ∷ []) (names ++ (name_of (declared_as declared.now)).text ∷ [])) }
    ensures bad { IfErr result (λ b. Says b (name_of (declared_as declared.now)) fault) }
{
    match fault {
        Some((code, line)) => Err(broken_rule(alloc, declared, code, line)),
        None => {
            before.pass(alloc, declared)?;
            Ok(())
        }
    }
}
