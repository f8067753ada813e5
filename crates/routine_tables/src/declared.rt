//! The variables that sections declare, in the order of the text.

ghost use Rattle.std.specs.Prelude.{◌≡◌, ◌++◌, reverse, slice_get, IfOk, OnOk};
ghost use Rattle.st_values.specs.View as view;
ghost use Rattle.program_tables.specs.Routine.{members_of};
ghost use Rattle.program_tables.specs.st_initial.Variables.{variables_of};
ghost use Rattle.routine_tables.specs.Private.Declared as declared;

use plc_text::NoMemory;
use program_tables::{ProgramTables, Variable, push_items};
use st_rules::is_constant;
use st_tree::{ClassDecl, Member, Note, Program, Section, SectionSort};
use std::alloc::Global;

fn is_external(sort: SectionSort) -> bool
    ensures { result ≡ declared.is_external sort }
{
    matches!(sort, SectionSort::External)
}

/// Adds the variables of a section: constants are none, and externals are the globals themselves.
#[tactic(auto, using(crate::proofs::DeclaredLaws::constant_section, crate::proofs::DeclaredLaws::external_section, crate::proofs::DeclaredLaws::other_section))]
fn push_section<'p>(out: &mut Vec<Variable<'p>>, section: &'p Section<Note>) -> Result<(), NoMemory>
    ensures { OnOk result (variables_of out.new.items ≡ variables_of out.old.items ++ declared.section_variables section.now) }
{
    if is_constant(section.modifiers.as_slice()) {
        return Ok(());
    }
    if is_external(section.sort) {
        return Ok(());
    }
    push_items(out, section.sort, section.items.as_slice())?;
    Ok(())
}

/// Adds the variables of sections.
pub fn push_sections<'p>(
    out: &mut Vec<Variable<'p>>,
    sections: &'p [Section<Note>],
) -> Result<(), NoMemory>
    ensures { OnOk result (variables_of out.new.items ≡ variables_of out.old.items ++ view.variables_in sections.now) }
{
    for section in sections {
        push_section(out, section)?;
    }
    Ok(())
}

/// Adds the variables of a class's members.
fn push_members<'p>(
    out: &mut Vec<Variable<'p>>,
    members: &'p [Member<Note>],
) -> Result<(), NoMemory>
    ensures { OnOk result (variables_of out.new.items ≡ variables_of out.old.items ++ view.variables_in (view.sections_in members.now)) }
{
    for member in members {
        if let Member::Section(section) = member {
            push_section(out, section)?;
        }
    }
    Ok(())
}

fn members_at(classes: &[ClassDecl<Note>], class: u32) -> &[Member<Note>]
    ensures { result.now ≡ members_of (slice_get classes.now class) }
{
    match classes.get(class as usize) {
        Some(class) => class.members.as_slice(),
        None => &[],
    }
}

/// Adds the variables that a class declares itself.
fn push_class<'p>(
    out: &mut Vec<Variable<'p>>,
    classes: &'p [ClassDecl<Note>],
    class: u32,
) -> Result<(), NoMemory>
    ensures { OnOk result (variables_of out.new.items ≡ variables_of out.old.items ++ view.declared_by (slice_get classes.now class)) }
{
    push_members(out, members_at(classes, class))?;
    Ok(())
}

/// The variables that classes declare themselves, the last class first.
fn declared_along<'p>(
    alloc: Global,
    classes: &'p [ClassDecl<Note>],
    chain: &[u32],
) -> Result<Vec<Variable<'p>>, NoMemory>
    ensures { IfOk result (λ all. variables_of all.items ≡ view.declared_along classes.now (reverse chain.now)) }
{
    let mut out = Vec::new(alloc);
    let mut left = chain.len();
    while left > 0 {
        left -= 1;
        push_class(&mut out, classes, chain[left])?;
    }
    Ok(out)
}

/// The variables that a program declares.
fn program_variables<'p>(
    alloc: Global,
    sections: &'p [Section<Note>],
) -> Result<Vec<Variable<'p>>, NoMemory>
    ensures { IfOk result (λ all. variables_of all.items ≡ view.variables_in sections.now) }
{
    let mut out = Vec::new(alloc);
    push_sections(&mut out, sections)?;
    Ok(out)
}

/// The variables that the class or program of a body declares, those of its bases first.
pub fn body_variables<'p>(
    alloc: Global,
    tables: &ProgramTables,
    program: &'p Program,
    class: u32,
) -> Result<Vec<Variable<'p>>, NoMemory>
    requires { tables.now ≡ program.now }
    ensures { IfOk result (λ all. variables_of all.items ≡ declared.body_variables program.now class) }
{
    let classes = program.classes.as_slice();
    if (class as usize) < classes.len() {
        let chain = tables.chain(alloc, class)?;
        let all = declared_along(alloc, classes, &chain)?;
        return Ok(all);
    }
    match program.programs.get(class as usize - classes.len()) {
        Some(decl) => {
            let all = program_variables(alloc, decl.sections.as_slice())?;
            Ok(all)
        }
        None => Ok(Vec::new(alloc)),
    }
}
