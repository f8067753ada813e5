//! What the rules of classes ask of each declaration, with names as numbers.

ghost use Rattle.std.specs.Prelude.{◌≡◌, ℕ, List, [], ◌∷◌, ◌++◌, option_and_then, unwrap_or, IfOk, OnOk};
ghost use Rattle.std.specs.Map.{keys_of};
ghost use Rattle.st_tree.specs.declared.declaration.ClassDecl.{ClassDecl};
ghost use Rattle.st_tree.specs.declared.declaration.InterfaceDecl.{InterfaceDecl};
ghost use Rattle.st_rules.specs.Named as named;
ghost use Rattle.st_rules.specs.ClassRules as rules;
ghost use Rattle.st_rules.specs.Classes.{classes_in};
ghost use Rattle.st_rules.specs.Interfaces.{interfaces_in};
ghost use Rattle.class_rows.specs.UnitNames.{all_names};
ghost use Rattle.class_rows.specs.Index.{Indexes};
ghost use Rattle.class_rows.specs.Rows as rows;
ghost use Rattle.class_rows.specs.UnitNames.{class_names, interface_names, HasClasses, HasInterfaces};
ghost use Rattle.class_rows.specs.Rows.{AreRows};
ghost use Rattle.class_rows.specs.Private.Added.{AddsRows};

use crate::index::{first_place, number_of};
use crate::unit_names::UnitNames;
use plc_text::{Items, NoMemory, Text};
use st_names::Names;
use st_rules::{
    Access, has_in_outs, has_statements, is_abstract, is_final, is_hook, is_override, method_access,
};
use st_tree::{ClassDecl, ClassSort, Decl, InterfaceDecl, Member, Method, Used};
use std::alloc::Global;

/// A method.
#[derive(Clone, Copy)]
pub struct MethodRow {
    pub line: u32,
    /// The number of its name.
    pub name: u32,
    pub access: Access,
    pub is_abstract: bool,
    pub is_final: bool,
    pub is_override: bool,
    pub is_hook: bool,
    pub has_statements: bool,
}

/// A class or a function block.
pub struct ClassRow {
    pub line: u32,
    pub is_block: bool,
    pub is_abstract: bool,
    pub is_final: bool,
    pub has_in_outs: bool,
    /// Whether it has EXTENDS.
    pub has_extends: bool,
    /// The base, where it is found.
    pub base: Option<u32>,
    /// The interfaces behind IMPLEMENTS.
    pub implemented: Items<u32>,
    pub methods: Items<MethodRow>,
}

// By hand, so that a drop is one call: a derived one is written out wherever a `?` may need it, and a proof goes over each part.
impl Drop for ClassRow {
    fn drop(self) {
        let ClassRow {
            line: _,
            is_block: _,
            is_abstract: _,
            is_final: _,
            has_in_outs: _,
            has_extends: _,
            base,
            implemented,
            methods,
        } = self;
        drop(base);
        drop(implemented);
        drop(methods);
    }
}

/// An interface.
#[derive(Drop)]
pub struct InterfaceRow {
    pub line: u32,
    /// The interfaces behind EXTENDS.
    pub extended: Items<u32>,
}

/// The classes and interfaces of a unit.
#[derive(Drop)]
pub struct UnitRows {
    pub classes: Items<ClassRow>,
    pub interfaces: Items<InterfaceRow>,
}

fn number_or_zero(names: &Names<()>, name: &Text) -> u32
    ensures { result ≡ unwrap_or (named.first_place name.now (keys_of names.now)) 0 }
{
    match number_of(names, name) {
        Some(number) => number,
        None => 0,
    }
}

fn method_row<A>(names: &Names<()>, method: &Method<A>) -> MethodRow
    ensures { result ≡ rows.method_row (keys_of names.now) method.now }
{
    let modifiers = method.modifiers.as_slice();
    MethodRow {
        line: method.line,
        name: number_or_zero(names, &method.name.text),
        access: method_access(modifiers),
        is_abstract: is_abstract(modifiers),
        is_final: is_final(modifiers),
        is_override: is_override(modifiers),
        is_hook: is_hook(&method.name.text),
        has_statements: has_statements(method.body.as_slice()),
    }
}

/// Adds the row of a member, if that is a method.
#[tactic(auto, using(crate::proofs::RowLaws::no_row))]
fn add_method_row<A>(
    made: &mut Items<MethodRow>,
    names: &Names<()>,
    member: &Member<A>,
) -> Result<(), NoMemory>
    ensures { OnOk result (made.new ≡ made.old ++ rows.method_rows (keys_of names.now) (member.now ∷ [])) }
{
    if let Member::Method(method) = member {
        made.push(method_row(names, method))?;
    }
    Ok(())
}

fn method_rows<A>(
    alloc: Global,
    names: &Names<()>,
    members: &[Member<A>],
) -> Result<Items<MethodRow>, NoMemory>
    ensures { IfOk result (λ made. made ≡ rows.method_rows (keys_of names.now) members.now) }
{
    let mut made = Items::new(alloc);
    for member in members {
        add_method_row(&mut made, names, member)?;
    }
    Ok(made)
}

/// The places of the first of the names, where there is one.
fn places_of<A>(alloc: Global, index: &Names<u32>, used: &[Used<A>]) -> Result<Items<u32>, NoMemory>
    ensures { IfOk result (λ made. (names : List (List ℕ)) → Indexes index.now names → made ≡ rows.places_of names used.now) }
{
    let mut made = Items::new(alloc);
    for name in used {
        if let Some(place) = first_place(index, &name.text) {
            made.push(place)?;
        }
    }
    Ok(made)
}

fn is_block(sort: ClassSort) -> bool
    ensures { result ≡ rules.is_block_sort sort }
{
    matches!(sort, ClassSort::FunctionBlock)
}

/// The place of the base, where it is found.
fn base_place<A>(names: &UnitNames, base: &Option<Used<A>>) -> Option<u32>
    ensures { (classes : List (ClassDecl A)) → HasClasses names.now classes → result ≡ option_and_then (λ b. named.first_place b.text (class_names classes)) base.now }
{
    match base {
        Some(base) => first_place(&names.classes, &base.text),
        None => None,
    }
}

fn class_row<A>(
    alloc: Global,
    names: &UnitNames,
    class: &ClassDecl<A>,
) -> Result<ClassRow, NoMemory>
    ensures { IfOk result (λ row. (classes : List (ClassDecl A)) (interfaces : List (InterfaceDecl A)) → HasClasses names.now classes → HasInterfaces names.now interfaces →
        row ≡ rows.class_row (all_names classes) (class_names classes) (interface_names interfaces) class.now) }
{
    let members = class.members.as_slice();
    let modifiers = class.modifiers.as_slice();
    let base = base_place(names, &class.base);
    Ok(ClassRow {
        line: class.line,
        is_block: is_block(class.sort),
        is_abstract: is_abstract(modifiers),
        is_final: is_final(modifiers),
        has_in_outs: has_in_outs(members),
        has_extends: class.base.is_some(),
        base,
        implemented: places_of(alloc, &names.interfaces, class.interfaces.as_slice())?,
        methods: method_rows(alloc, &names.methods, members)?,
    })
}

fn interface_row<A>(
    alloc: Global,
    names: &UnitNames,
    interface: &InterfaceDecl<A>,
) -> Result<InterfaceRow, NoMemory>
    ensures { IfOk result (λ row. (interfaces : List (InterfaceDecl A)) → HasInterfaces names.now interfaces → row ≡ rows.interface_row (interface_names interfaces) interface.now) }
{
    Ok(InterfaceRow {
        line: interface.line,
        extended: places_of(alloc, &names.interfaces, interface.bases.as_slice())?,
    })
}

/// Adds the row of a declaration, if that is a class or an interface.
fn add_rows<A>(
    alloc: Global,
    names: &UnitNames,
    made: &mut UnitRows,
    decl: &Decl<A>,
) -> Result<(), NoMemory>
    ensures { OnOk result ((classes : List (ClassDecl A)) (interfaces : List (InterfaceDecl A)) → HasClasses names.now classes → HasInterfaces names.now interfaces → AddsRows classes interfaces decl.now made.old made.new) }
{
    match decl {
        Decl::Class(class) => add_class_row(alloc, names, &mut made.classes, class),
        Decl::Interface(interface) => {
            add_interface_row(alloc, names, &mut made.interfaces, interface)
        }
        Decl::Types(_, _) => Ok(()),
        Decl::Globals(_) => Ok(()),
        Decl::Function(_) => Ok(()),
        Decl::Program(_) => Ok(()),
        Decl::Configuration(_) => Ok(()),
    }
}

fn add_class_row<A>(
    alloc: Global,
    names: &UnitNames,
    made: &mut Items<ClassRow>,
    class: &ClassDecl<A>,
) -> Result<(), NoMemory>
    ensures { OnOk result ((classes : List (ClassDecl A)) (interfaces : List (InterfaceDecl A)) → HasClasses names.now classes → HasInterfaces names.now interfaces →
        made.new ≡ made.old ++ rows.class_row (all_names classes) (class_names classes) (interface_names interfaces) class.now ∷ []) }
{
    let row = class_row(alloc, names, class)?;
    made.push(row)?;
    Ok(())
}

fn add_interface_row<A>(
    alloc: Global,
    names: &UnitNames,
    made: &mut Items<InterfaceRow>,
    interface: &InterfaceDecl<A>,
) -> Result<(), NoMemory>
    ensures { OnOk result ((interfaces : List (InterfaceDecl A)) → HasInterfaces names.now interfaces → made.new ≡ made.old ++ rows.interface_row (interface_names interfaces) interface.now ∷ []) }
{
    let row = interface_row(alloc, names, interface)?;
    made.push(row)?;
    Ok(())
}

/// The rows of the declarations, whose names are given.
pub fn unit_rows<A>(
    alloc: Global,
    names: &UnitNames,
    decls: &[Decl<A>],
) -> Result<UnitRows, NoMemory>
    requires classes { HasClasses names.now (classes_in decls.now) }
    requires interfaces { HasInterfaces names.now (interfaces_in decls.now) }
    ensures { IfOk result (λ made. AreRows (classes_in decls.now) (interfaces_in decls.now) made) }
{
    let mut made = UnitRows {
        classes: Items::new(alloc),
        interfaces: Items::new(alloc),
    };
    for decl in decls {
        add_rows(alloc, names, &mut made, decl)?;
    }
    Ok(made)
}
