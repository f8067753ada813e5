//! Methods of classes and function blocks.

ghost use Rattle.std.specs.Prelude.{◌≡◌, IfOk};
ghost use Rattle.check_routines.specs.routine_rules.Parts.{Serves};
ghost use Rattle.check_routines.specs.method_rules.Methods.{ChecksMethod};
ghost use Rattle.check_routines.specs.method_rules.Private.Methods.{IsMethod, MethodIn};

use crate::function_rules::parts_of;
use crate::routine_rules::{CheckedRoutine, UnitParts, check_routine};
use check_names::name_rules::local_name_fault;
use check_names::name_spaces::word_twice;
use name_resolution::Scope;
use plc_text::{Code, Items, NoMemory};
use section_rules::Home;
use st_rules::{DeclaredVariable, earlier};
use st_tree::{Method, Modifier, Name, Note};
use std::alloc::Global;
use symbol_table::unit_tables::UnitTables;
use type_resolution::told_locals::Declaring;

/// What is found out about a method.
#[derive(Drop)]
pub struct CheckedMethod {
    /// The least rule that is broken, with its least line.
    pub least: Option<(Code, u32)>,
    /// The method with all types and meanings, where no rule is broken.
    pub method: Method<Note>,
}

/// A method with these words and this name, which break this besides.
fn method_of(
    line: u32,
    modifiers: Items<Modifier>,
    name: Name,
    words: Option<(Code, u32)>,
    found: CheckedRoutine,
) -> CheckedMethod
    ensures { IsMethod result line modifiers name words found }
{
    let CheckedRoutine {
        least,
        result: kind,
        sections,
        body,
    } = found;
    CheckedMethod {
        least: earlier(words, least),
        method: Method {
            line,
            modifiers,
            name,
            result: kind,
            sections,
            body,
        },
    }
}

/// Checks a method in its scope with its locals.
fn check_in(
    alloc: Global,
    s: &Scope<'_>,
    parts: &UnitParts<'_>,
    locals: &[DeclaredVariable],
    method: &Method<u32>,
) -> Result<CheckedMethod, NoMemory>
    requires parts { Serves parts.now s.now }
    requires locals { locals.now ≡ s.now.locals }
    ensures { IfOk result (λ c. MethodIn c parts.now.graph.now.decls s.now method.now) }
{
    let line = method.line;
    let sections = method.sections.as_slice();
    let body = method.body.as_slice();
    let kind = &method.result;
    let written = method.modifiers.as_slice();
    let twice = word_twice(line, written);
    let names = local_name_fault(alloc, &method.name.text, sections)?;
    let modifiers = Items::from_slice(alloc, written)?;
    let name = method.name.copy(alloc)?;
    let home = Home::Routine;
    let found = check_routine(alloc, s, parts, locals, home, line, kind, sections, body)?;
    let words = earlier(twice, names);
    Ok(method_of(line, modifiers, name, words, found))
}

/// Checks a method of the class of this number in a unit: the least of all rules that it breaks by itself, and its typed tree, where it
/// breaks none.
pub fn check_method(
    alloc: Global,
    tables: &UnitTables<'_>,
    class: u32,
    method: &Method<u32>,
) -> Result<CheckedMethod, NoMemory>
    ensures { IfOk result (λ c. ChecksMethod c tables.now.decls class method.now) }
{
    let sections = method.sections.as_slice();
    let of = Declaring::Routine(&method.name, &method.result, sections);
    let list = tables.locals(alloc, Some(class), true, &of)?;
    let locals = list.as_slice();
    let s = tables.scope(alloc, Some(class), true, locals)?;
    let parts = parts_of(tables);
    check_in(alloc, &s, &parts, locals, method)
}
