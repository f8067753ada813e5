//! Methods of interfaces, which have no body.

ghost use Rattle.std.specs.Prelude.{◌≡◌, IfOk};
ghost use Rattle.check_routines.specs.routine_rules.Parts.{Serves};
ghost use Rattle.check_routines.specs.method_rules.Prototypes.{ChecksPrototype};
ghost use Rattle.check_routines.specs.method_rules.Private.Prototypes.{IsPrototype, PrototypeIn};

use crate::function_rules::parts_of;
use crate::routine_rules::{CheckedVariables, UnitParts, check_variables};
use name_resolution::Scope;
use plc_text::{Code, NoMemory};
use section_rules::Home;
use st_tree::{Name, Note, Prototype};
use std::alloc::Global;
use symbol_table::unit_tables::UnitTables;
use type_resolution::told_locals::Declaring;

/// What is found out about a method of an interface.
#[derive(Drop)]
pub struct CheckedPrototype {
    /// The least rule that is broken, with its least line.
    pub least: Option<(Code, u32)>,
    /// The method with all types and meanings.
    pub method: Prototype<Note>,
}

fn prototype_of(line: u32, name: Name, found: CheckedVariables) -> CheckedPrototype
    ensures { IsPrototype result line name found }
{
    let least = found.least;
    let (kind, sections) = found.into_parts();
    CheckedPrototype {
        least,
        method: Prototype {
            line,
            name,
            result: kind,
            sections,
        },
    }
}

/// Checks a method of an interface in its scope with its locals.
fn check_in(
    alloc: Global,
    s: &Scope<'_>,
    parts: &UnitParts<'_>,
    method: &Prototype<u32>,
) -> Result<CheckedPrototype, NoMemory>
    requires { Serves parts.now s.now }
    ensures { IfOk result (λ c. PrototypeIn c parts.now.graph.now.decls s.now method.now) }
{
    let line = method.line;
    let sections = method.sections.as_slice();
    let name = method.name.copy(alloc)?;
    let home = Home::Prototype;
    let found = check_variables(alloc, s, parts, home, line, &method.result, sections)?;
    Ok(prototype_of(line, name, found))
}

/// Checks a method of an interface of a unit: the least of all rules that it breaks by itself, but those of its names, and its typed tree.
pub fn check_prototype(
    alloc: Global,
    tables: &UnitTables<'_>,
    method: &Prototype<u32>,
) -> Result<CheckedPrototype, NoMemory>
    ensures { IfOk result (λ c. ChecksPrototype c tables.now.decls method.now) }
{
    let sections = method.sections.as_slice();
    let of = Declaring::Routine(&method.name, &method.result, sections);
    let list = tables.locals(alloc, None, false, &of)?;
    let locals = list.as_slice();
    let s = tables.scope(alloc, None, false, locals)?;
    let parts = parts_of(tables);
    check_in(alloc, &s, &parts, method)
}
