//! Programs.

ghost use Rattle.std.specs.Prelude.{◌≡◌, IfOk};
ghost use Rattle.st_rules.specs.Faults.{least};
ghost use Rattle.check_routines.specs.routine_rules.Parts.{Serves};
ghost use Rattle.check_routines.specs.function_rules.Programs.{ChecksProgram};
ghost use Rattle.check_routines.specs.function_rules.Private.Programs.{cycles_and_limits, IsProgram, ProgramIn};

use crate::depth_rules::{body_depth_fault, kept_depth_fault};
use crate::function_rules::parts::parts_of;
use crate::routine_rules::{FoundBody, UnitParts, body_found};
use check_declared_variables::{CheckedSections, check_sections};
use check_names::name_rules::space_fault;
use check_names::name_spaces::section_names;
use declared_graph::inner_cycles_fault;
use name_resolution::Scope;
use plc_text::{Code, NoMemory};
use section_rules::Home;
use st_rules::earlier;
use st_tree::{Name, Note, ProgramDecl};
use st_unit_rules::declaration_list::written_names;
use std::alloc::Global;
use symbol_table::unit_tables::UnitTables;
use type_resolution::told_locals::Declaring;

/// What is found out about a program.
#[derive(Drop)]
pub struct CheckedProgram {
    /// The least rule that is broken, with its least line.
    pub least: Option<(Code, u32)>,
    /// The program with all types and meanings, where no rule is broken.
    pub program: ProgramDecl<Note>,
}

/// What constants that need themselves and the limits of a program break.
fn limits_fault(
    alloc: Global,
    s: &Scope<'_>,
    parts: &UnitParts<'_>,
    program: &ProgramDecl<u32>,
) -> Result<Option<(Code, u32)>, NoMemory>
    requires { Serves parts.now s.now }
    ensures { IfOk result (λ f. f ≡ least (cycles_and_limits parts.now.graph.now.decls s.now program.now)) }
{
    let line = program.line;
    let (sizes, graph) = (parts.sizes, parts.graph);
    let sections = program.sections.as_slice();
    let list = written_names(alloc, sections)?;
    let names = list.as_slice();
    let cycles = inner_cycles_fault(alloc, names)?;
    let kept = kept_depth_fault(alloc, s, sizes, graph, line, names)?;
    let of_body = body_depth_fault(alloc, s, sizes, graph, names)?;
    Ok(earlier(cycles, earlier(kept, of_body)))
}

/// A program of this name, whose names and limits break these besides.
fn program_of(
    line: u32,
    name: Name,
    names: Option<(Code, u32)>,
    found: CheckedSections,
    limits: Option<(Code, u32)>,
    body: FoundBody,
) -> CheckedProgram
    ensures { IsProgram result line name names found limits body }
{
    let FoundBody {
        least: of_body,
        body,
    } = body;
    CheckedProgram {
        least: earlier(earlier(earlier(names, found.least), limits), of_body),
        program: ProgramDecl {
            line,
            name,
            sections: found.into_sections(),
            body,
        },
    }
}

/// Checks a program in the scope with its variables.
fn check_in(
    alloc: Global,
    s: &Scope<'_>,
    parts: &UnitParts<'_>,
    program: &ProgramDecl<u32>,
) -> Result<CheckedProgram, NoMemory>
    requires { Serves parts.now s.now }
    ensures { IfOk result (λ c. ProgramIn c parts.now.graph.now.decls s.now program.now) }
{
    let sections = program.sections.as_slice();
    let list = section_names(alloc, sections)?;
    let all = list.as_slice();
    let names = space_fault(alloc, all)?;
    drop(list);
    let limits = limits_fault(alloc, s, parts, program)?;
    let name = program.name.copy(alloc)?;
    let (tables, classes) = (parts.names, parts.classes);
    let found = check_sections(alloc, s, tables, classes, Home::Program, sections)?;
    let text = program.body.as_slice();
    let body = body_found(alloc, s, text)?;
    Ok(program_of(program.line, name, names, found, limits, body))
}

/// Checks a program of a unit: the least of all rules that it breaks, but those of its own name, of cycles and of the number of
/// declarations, and its typed tree, where it breaks none.
pub fn check_program(
    alloc: Global,
    tables: &UnitTables<'_>,
    program: &ProgramDecl<u32>,
) -> Result<CheckedProgram, NoMemory>
    ensures { IfOk result (λ c. ChecksProgram c tables.now.decls program.now) }
{
    let sections = program.sections.as_slice();
    let of = Declaring::Program(sections);
    let list = tables.locals(alloc, None, false, &of)?;
    let variables = list.as_slice();
    let s = tables.scope(alloc, None, false, variables)?;
    let parts = parts_of(tables);
    check_in(alloc, &s, &parts, program)
}
