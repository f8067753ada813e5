//! The variables that classes and structures have, in the order of their numbers.

ghost use Rattle.std.specs.Prelude.{◌≡◌, ◌++◌, reverse, IfOk, OnOk};
ghost use Rattle.st_values.specs.Program.{class_at, own_of, own_variables, class_variables};
ghost use Rattle.st_values.specs.View as view;
ghost use Rattle.st_values.specs.Shape.{fields_of};
ghost use Rattle.program_tables.specs.st_initial.Variables.{variables_of, or_none, fields_at};
ghost use Rattle.program_tables.specs.st_initial.Private.Kept.{kept_in};

use crate::ProgramTables;
use plc_text::{NoMemory, Text, narrowed};
use st_rules::is_constant;
use st_tree::{
    FieldGroup, Init, Item, Member, Note, Program, Section, SectionSort, SimpleSpec, TypeBody,
    TypeDecl, TypeSpec,
};
use st_types::StType;
use std::alloc::Global;

/// A variable that has a place, with what the program says of it.
#[derive(Clone, Copy)]
pub struct Variable<'p> {
    /// In upper case.
    pub name: &'p Text,
    /// The sort of its section.
    pub sort: SectionSort,
    pub kind: &'p StType,
    pub initial: Option<&'p Init<Note>>,
    /// What is marked at it.
    pub no_copy: bool,
    pub init_on_change: bool,
    pub renamed_from: Option<&'p Text>,
    /// In upper case.
    pub address: Option<&'p Text>,
}

/// The type that is written, as it is noted at its first word.
pub fn kind_of(spec: &TypeSpec<Note>) -> &StType
    ensures { result.now ≡ view.kind_of spec.now }
{
    match spec.arrays.as_slice() {
        [array, ..] => &array.note.kind,
        [] => match &spec.element {
            SimpleSpec::Elementary(a, _) => &a.kind,
            SimpleSpec::Named(a, _) => &a.kind,
            SimpleSpec::Reference(a, _, _) => &a.kind,
        },
    }
}

/// Adds the variables of an item.
fn push_item<'p>(
    out: &mut Vec<Variable<'p>>,
    sort: SectionSort,
    item: &'p Item<Note>,
) -> Result<(), NoMemory>
    ensures { OnOk result (variables_of out.new.items ≡ variables_of out.old.items ++ view.named_variables sort item.now item.now.marks item.now.names) }
{
    let kind = kind_of(&item.kind);
    let mut renamed_from = item.marks.renamed_from.as_ref();
    for name in item.names.as_slice() {
        out.push(Variable {
            name: &name.text,
            sort,
            kind,
            initial: item.initial.as_ref(),
            no_copy: item.marks.no_copy,
            init_on_change: item.marks.init_on_change,
            renamed_from,
            address: item.address.as_ref(),
        })?;
        renamed_from = None;
    }
    Ok(())
}

/// Adds the variables of the items of a section of this sort.
pub fn push_items<'p>(
    out: &mut Vec<Variable<'p>>,
    sort: SectionSort,
    items: &'p [Item<Note>],
) -> Result<(), NoMemory>
    ensures { OnOk result (variables_of out.new.items ≡ variables_of out.old.items ++ view.items_in sort items.now) }
{
    for item in items {
        push_item(out, sort, item)?;
    }
    Ok(())
}

/// Whether an instance keeps what such a section declares.
fn is_kept(sort: SectionSort) -> bool
    ensures { result ≡ view.is_kept sort }
{
    matches!(
        sort,
        SectionSort::Var | SectionSort::Input | SectionSort::Output
    )
}

/// Adds the variables of a section that an instance keeps.
fn push_section<'p>(out: &mut Vec<Variable<'p>>, section: &'p Section<Note>) -> Result<(), NoMemory>
    ensures { OnOk result (variables_of out.new.items ≡ variables_of out.old.items ++ kept_in section.now) }
{
    if is_constant(section.modifiers.as_slice()) {
        return Ok(());
    }
    if is_kept(section.sort) {
        push_items(out, section.sort, section.items.as_slice())
    } else {
        Ok(())
    }
}

/// Adds the variables of sections that an instance keeps.
fn push_sections<'p>(
    out: &mut Vec<Variable<'p>>,
    sections: &'p [Section<Note>],
) -> Result<(), NoMemory>
    ensures { OnOk result (variables_of out.new.items ≡ variables_of out.old.items ++ view.those view.is_kept (view.variables_in sections.now)) }
{
    for section in sections {
        push_section(out, section)?;
    }
    Ok(())
}

/// Adds the variables of a class's members that an instance keeps.
fn push_members<'p>(
    out: &mut Vec<Variable<'p>>,
    members: &'p [Member<Note>],
) -> Result<(), NoMemory>
    ensures { OnOk result (variables_of out.new.items ≡ variables_of out.old.items ++ view.those view.is_kept (view.variables_in (view.sections_in members.now))) }
{
    for member in members {
        if let Member::Section(section) = member {
            push_section(out, section)?;
        }
    }
    Ok(())
}

/// Adds the variables that a class or a program declares itself.
pub fn push_own<'p>(
    out: &mut Vec<Variable<'p>>,
    program: &'p Program,
    class: usize,
) -> Result<(), NoMemory>
    ensures { OnOk result (variables_of out.new.items ≡ variables_of out.old.items ++ own_of (class_at (view.program_of program.now) class)) }
{
    let classes = program.classes.as_slice();
    if class < classes.len() {
        return push_members(out, classes[class].members.as_slice());
    }
    match program.programs.get(class - classes.len()) {
        Some(decl) => push_sections(out, decl.sections.as_slice()),
        None => Ok(()),
    }
}

/// Adds the fields of a group.
fn push_group<'p>(out: &mut Vec<Variable<'p>>, group: &'p FieldGroup<Note>) -> Result<(), NoMemory>
    ensures { OnOk result (variables_of out.new.items ≡ variables_of out.old.items ++ view.group_variables group.now group.now.names) }
{
    let kind = kind_of(&group.kind);
    for name in group.names.as_slice() {
        out.push(Variable {
            name: &name.text,
            sort: SectionSort::Var,
            kind,
            initial: group.initial.as_ref(),
            no_copy: false,
            init_on_change: false,
            renamed_from: None,
            address: None,
        })?;
    }
    Ok(())
}

/// Adds the fields of groups.
fn push_groups<'p>(
    out: &mut Vec<Variable<'p>>,
    groups: &'p [FieldGroup<Note>],
) -> Result<(), NoMemory>
    ensures { OnOk result (variables_of out.new.items ≡ variables_of out.old.items ++ view.groups_in groups.now) }
{
    for group in groups {
        push_group(out, group)?;
    }
    Ok(())
}

/// Adds the fields of a structure; a type of another form has none.
fn push_type<'p>(out: &mut Vec<Variable<'p>>, decl: &'p TypeDecl<Note>) -> Result<(), NoMemory>
    ensures { OnOk result (variables_of out.new.items ≡ variables_of out.old.items ++ or_none (fields_of (view.type_entry decl.now).body)) }
{
    match &decl.body {
        TypeBody::Structure(groups) => push_groups(out, groups.as_slice()),
        TypeBody::Alias(_) => Ok(()),
        TypeBody::Enumeration(_) => Ok(()),
    }
}

/// The fields of a structure, in order; none where the number is that of another type.
pub fn structure_fields(
    alloc: Global,
    program: &Program,
    structure: usize,
) -> Result<Vec<Variable<'_>>, NoMemory>
    ensures { IfOk result (λ fields. variables_of fields.items ≡ fields_at (view.program_of program.now) structure) }
{
    let mut out = Vec::new(alloc);
    if let Some(decl) = program.types.get(structure) {
        push_type(&mut out, decl)?;
    }
    Ok(out)
}

/// The variables that these classes declare themselves, the last class first.
fn declared_along<'p>(
    alloc: Global,
    program: &'p Program,
    classes: &[u32],
) -> Result<Vec<Variable<'p>>, NoMemory>
    ensures { IfOk result (λ variables. variables_of variables.items ≡ own_variables (view.program_of program.now) (reverse classes.now)) }
{
    let mut out = Vec::new(alloc);
    let mut left = classes.len();
    while left > 0 {
        left -= 1;
        push_own(&mut out, program, classes[left] as usize)?;
    }
    Ok(out)
}

/// The variables of an instance of a class or a program, those of its bases first, by the tables of the program.
pub fn instance_variables<'p>(
    alloc: Global,
    tables: &ProgramTables,
    program: &'p Program,
    class: u32,
) -> Result<Vec<Variable<'p>>, NoMemory>
    requires { tables.now ≡ program.now }
    ensures { IfOk result (λ variables. variables_of variables.items ≡ class_variables (view.program_of program.now) class) }
{
    let chain = tables.chain(alloc, class)?;
    let variables = declared_along(alloc, program, &chain)?;
    Ok(variables)
}

/// The variables of an instance of a class or a program, those of its bases first.
pub fn class_variables(
    alloc: Global,
    program: &Program,
    class: usize,
) -> Result<Vec<Variable<'_>>, NoMemory>
    ensures { IfOk result (λ variables. variables_of variables.items ≡ class_variables (view.program_of program.now) class) }
{
    let class = narrowed(class)?;
    let tables = ProgramTables::build(alloc, program)?;
    let variables = instance_variables(alloc, &tables, program, class)?;
    Ok(variables)
}
