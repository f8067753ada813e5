//! Functions and methods.

ghost use Rattle.std.specs.Prelude.{◌≡◌, IfOk};
ghost use Rattle.section_rules.specs.Home.{home_of};
ghost use Rattle.check_routines.specs.routine_rules.Parts.{Serves};
ghost use Rattle.check_routines.specs.routine_rules.Routines.{ChecksRoutine};
ghost use Rattle.check_routines.specs.routine_rules.Private.Routines.{IsRoutine};

use crate::routine_rules::bodies::{FoundBody, body_found};
use crate::routine_rules::parts::UnitParts;
use crate::routine_rules::variables::{CheckedVariables, check_variables};
use check_limits::locals_fault;
use name_resolution::Scope;
use plc_text::{Code, Items, NoMemory};
use section_rules::Home;
use st_rules::{DeclaredVariable, earlier};
use st_tree::{Note, Section, Stmt, TypeSpec};
use std::alloc::Global;

/// What is found out about a function or a method.
#[derive(Drop)]
pub struct CheckedRoutine {
    /// The least rule that is broken, with its least line.
    pub least: Option<(Code, u32)>,
    pub result: Option<TypeSpec<Note>>,
    pub sections: Items<Section<Note>>,
    /// Where no rule is broken.
    pub body: Items<Stmt<Note>>,
}

fn routine_of(
    variables: CheckedVariables,
    locals: Option<(Code, u32)>,
    body: FoundBody,
) -> CheckedRoutine
    ensures { IsRoutine result variables locals body }
{
    let own = earlier(variables.least, locals);
    let (kind, sections) = variables.into_parts();
    let FoundBody {
        least: of_body,
        body,
    } = body;
    CheckedRoutine {
        least: earlier(own, of_body),
        result: kind,
        sections,
        body,
    }
}

/// Checks a function or a method whose heading stands at this line, in its scope with its locals: the least rule that it breaks, but
/// those of its names, and its typed trees, that of its body where no rule is broken.
pub fn check_routine(
    alloc: Global,
    s: &Scope<'_>,
    parts: &UnitParts<'_>,
    locals: &[DeclaredVariable],
    home: Home,
    line: u32,
    spec: &Option<TypeSpec<u32>>,
    sections: &[Section<u32>],
    body: &[Stmt<u32>],
) -> Result<CheckedRoutine, NoMemory>
    requires parts { Serves parts.now s.now }
    requires locals { locals.now ≡ s.now.locals }
    ensures { IfOk result (λ c. ChecksRoutine c parts.now.graph.now.decls s.now (home_of home) line spec.now sections.now body.now) }
{
    let variables = check_variables(alloc, s, parts, home, line, spec, sections)?;
    let many = locals_fault(parts.sizes, line, locals);
    let body = body_found(alloc, s, body)?;
    Ok(routine_of(variables, many, body))
}
