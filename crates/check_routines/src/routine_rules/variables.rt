//! What a routine declares: its sections and its result.

ghost use Rattle.std.specs.Prelude.{◌≡◌, IfOk};
ghost use Rattle.section_rules.specs.Home.{home_of};
ghost use Rattle.check_routines.specs.routine_rules.Parts.{Serves};
ghost use Rattle.check_routines.specs.routine_rules.Variables.{ChecksVariables};
ghost use Rattle.check_routines.specs.routine_rules.Private.Variables.{AreVariables};

use crate::routine_rules::limits::limits_fault;
use crate::routine_rules::parts::UnitParts;
use check_declared_variables::{CheckedResult, CheckedSections, check_result, check_sections};
use name_resolution::Scope;
use plc_text::{Code, Items, NoMemory};
use section_rules::Home;
use st_rules::earlier;
use st_tree::{Note, Section, TypeSpec};
use std::alloc::Global;

/// What is found out about the sections and the result of a routine.
pub struct CheckedVariables {
    /// The least rule that is broken, with its least line.
    pub least: Option<(Code, u32)>,
    pub result: Option<TypeSpec<Note>>,
    pub sections: Items<Section<Note>>,
}

// By hand, so that a drop is one call: a derived one is written out wherever a `?` may need it.
impl Drop for CheckedVariables {
    fn drop(self) {
        let (kind, sections) = self.into_parts();
        drop(kind);
        drop(sections);
    }
}

impl CheckedVariables {
    /// The result and the sections.
    pub fn into_parts(self) -> (Option<TypeSpec<Note>>, Items<Section<Note>>)
        ensures kind { result.0 ≡ self.result }
        ensures sections { result.1 ≡ self.sections }
    {
        let CheckedVariables {
            least: _,
            result: kind,
            sections,
        } = self;
        (kind, sections)
    }
}

/// Sections and a result, which break this besides.
fn variables_of(
    sections: CheckedSections,
    spec: CheckedResult,
    limits: Option<(Code, u32)>,
) -> CheckedVariables
    ensures { AreVariables result sections spec limits }
{
    CheckedVariables {
        least: earlier(earlier(sections.least, spec.least), limits),
        result: spec.into_result(),
        sections: sections.into_sections(),
    }
}

/// Checks the sections and the result of a routine whose heading stands at this line: the least rule that they break, the limits of
/// parameters among them, and their typed trees. For a method of an interface these are all rules but those of its names.
pub fn check_variables(
    alloc: Global,
    s: &Scope<'_>,
    parts: &UnitParts<'_>,
    home: Home,
    line: u32,
    spec: &Option<TypeSpec<u32>>,
    sections: &[Section<u32>],
) -> Result<CheckedVariables, NoMemory>
    requires { Serves parts.now s.now }
    ensures { IfOk result (λ c. ChecksVariables c parts.now.graph.now.decls s.now (home_of home) line spec.now sections.now) }
{
    let found = check_sections(alloc, s, parts.names, parts.classes, home, sections)?;
    let kind = check_result(alloc, s, line, spec)?;
    let limits = limits_fault(alloc, s, parts, line, spec, sections)?;
    Ok(variables_of(found, kind, limits))
}
