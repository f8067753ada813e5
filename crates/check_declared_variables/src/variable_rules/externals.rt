//! Externals: the globals that they mean.

ghost use Rattle.std.specs.Prelude.{◌≡◌, None, Some, MatchOption};
ghost use Rattle.st_rules.specs.Faults.{least};
ghost use Rattle.st_rules.specs.Types as types;
ghost use Rattle.st_unit_rules.specs.VariableRules as rules;
ghost use Rattle.check_declared_variables.specs.variable_rules.Private.Externals.{global_in, name_faults, external_faults};

use name_resolution::NameTables;
use plc_text::{Code, Text};
use st_rules::{DeclaredGlobal, DeclaredVariable, earlier, when};
use st_tree::Name;
use st_types::StType;

/// The variable that a global is.
fn variable_of(global: &DeclaredGlobal) -> Option<&DeclaredVariable>
    ensures { MatchOption result (rules.global_variable (Some global.now) ≡ None) (λ v. rules.global_variable (Some global.now) ≡ Some v.now) }
{
    match global {
        DeclaredGlobal::Variable(v) => Some(v),
        DeclaredGlobal::Function(_, _) => None,
    }
}

/// The global that an external means.
fn global_meant<'a>(names: &'a NameTables, name: &Text) -> Option<&'a DeclaredVariable>
    ensures { MatchOption result (global_in names.now.names name.now ≡ None) (λ v. global_in names.now.names name.now ≡ Some v.now) }
{
    match names.global_named(name) {
        Some(global) => variable_of(global),
        None => None,
    }
}

fn same_type(a: &StType, b: &StType) -> bool
    ensures { result ≡ types.same_type a.now b.now }
{
    a.is_same(b)
}

fn is_another_type(kind: &Option<StType>, other: &Option<StType>) -> bool
    ensures { result ≡ rules.is_another_type kind.now other.now }
{
    match kind {
        Some(kind) => match other {
            Some(other) => !same_type(kind, other),
            None => false,
        },
        None => false,
    }
}

/// What the name of an external breaks: E05 where there is no global of the name, E07 at the line where it has another type.
fn name_fault(
    names: &NameTables,
    line: u32,
    kind: &Option<StType>,
    name: &Name,
) -> Option<(Code, u32)>
    ensures { result ≡ least (name_faults names.now.names line kind.now name.now) }
{
    match global_meant(names, &name.text) {
        Some(v) => when(is_another_type(kind, &v.kind), Code::E07, line),
        None => when(true, Code::E05, name.line),
    }
}

/// What the names of an external break, whose item stands at this line.
pub fn externals_fault(
    names: &NameTables,
    line: u32,
    kind: &Option<StType>,
    list: &[Name],
) -> Option<(Code, u32)>
    ensures { result ≡ least (external_faults names.now.names line kind.now list.now) }
{
    let mut found = None;
    for name in list {
        found = earlier(found, name_fault(names, line, kind, name));
    }
    found
}
