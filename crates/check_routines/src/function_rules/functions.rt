//! Functions.

ghost use Rattle.std.specs.Prelude.{◌≡◌, IfOk};
ghost use Rattle.check_routines.specs.routine_rules.Parts.{Serves};
ghost use Rattle.check_routines.specs.function_rules.Functions.{ChecksFunction};
ghost use Rattle.check_routines.specs.function_rules.Private.Functions.{IsFunction, FunctionIn};

use crate::function_rules::parts::parts_of;
use crate::routine_rules::{CheckedRoutine, UnitParts, check_routine};
use check_names::name_rules::local_name_fault;
use name_resolution::Scope;
use plc_text::{Code, NoMemory};
use section_rules::Home;
use st_rules::{DeclaredVariable, earlier};
use st_tree::{FunctionDecl, Name, Note};
use std::alloc::Global;
use symbol_table::unit_tables::UnitTables;
use type_resolution::told_locals::Declaring;

/// What is found out about a function.
#[derive(Drop)]
pub struct CheckedFunction {
    /// The least rule that is broken, with its least line.
    pub least: Option<(Code, u32)>,
    /// The function with all types and meanings, where no rule is broken.
    pub function: FunctionDecl<Note>,
}

/// A function of this name, whose names break this besides.
fn function_of(
    line: u32,
    name: Name,
    names: Option<(Code, u32)>,
    found: CheckedRoutine,
) -> CheckedFunction
    ensures { IsFunction result line name names found }
{
    let CheckedRoutine {
        least,
        result: kind,
        sections,
        body,
    } = found;
    CheckedFunction {
        least: earlier(names, least),
        function: FunctionDecl {
            line,
            name,
            result: kind,
            sections,
            body,
        },
    }
}

/// Checks a function in its scope with its locals.
fn check_in(
    alloc: Global,
    s: &Scope<'_>,
    parts: &UnitParts<'_>,
    locals: &[DeclaredVariable],
    function: &FunctionDecl<u32>,
) -> Result<CheckedFunction, NoMemory>
    requires parts { Serves parts.now s.now }
    requires locals { locals.now ≡ s.now.locals }
    ensures { IfOk result (λ c. FunctionIn c parts.now.graph.now.decls s.now function.now) }
{
    let line = function.line;
    let sections = function.sections.as_slice();
    let body = function.body.as_slice();
    let kind = &function.result;
    let names = local_name_fault(alloc, &function.name.text, sections)?;
    let name = function.name.copy(alloc)?;
    let home = Home::Routine;
    let found = check_routine(alloc, s, parts, locals, home, line, kind, sections, body)?;
    Ok(function_of(line, name, names, found))
}

/// Checks a function of a unit: the least of all rules that it breaks, but those of its own name, of cycles and of the number of
/// declarations, and its typed tree, where it breaks none.
pub fn check_function(
    alloc: Global,
    tables: &UnitTables<'_>,
    function: &FunctionDecl<u32>,
) -> Result<CheckedFunction, NoMemory>
    ensures { IfOk result (λ c. ChecksFunction c tables.now.decls function.now) }
{
    let sections = function.sections.as_slice();
    let of = Declaring::Routine(&function.name, &function.result, sections);
    let list = tables.locals(alloc, None, false, &of)?;
    let locals = list.as_slice();
    let s = tables.scope(alloc, None, false, locals)?;
    let parts = parts_of(tables);
    check_in(alloc, &s, &parts, locals, function)
}
