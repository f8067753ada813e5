//! The names of a unit: of its classes and interfaces, with the first place of each, and of all methods.

ghost use Rattle.std.specs.Prelude.{◌≡◌, suc, ◌∷◌, [], ◌++◌, map, List, IfOk, OnOk};
ghost use Rattle.std.specs.Map.{keys_of};
ghost use Rattle.st_tree.specs.declared.declaration.ClassDecl.{ClassDecl};
ghost use Rattle.st_tree.specs.declared.declaration.InterfaceDecl.{InterfaceDecl};
ghost use Rattle.st_rules.specs.Classes.{classes_in, methods_in};
ghost use Rattle.st_rules.specs.Interfaces.{interfaces_in};
ghost use Rattle.class_rows.specs.UnitNames.{with_new};
ghost use Rattle.class_rows.specs.UnitNames.{HasClasses, HasInterfaces};

use crate::index::{note, number};
use plc_text::NoMemory;
use st_names::Names;
use st_tree::{ClassDecl, Decl, InterfaceDecl, Member};
use std::alloc::Global;

/// The names that are declared.
pub struct UnitNames {
    /// The names of methods, each once.
    pub methods: Names<()>,
    /// The first class of each name.
    pub classes: Names<u32>,
    pub class_count: u32,
    /// The first interface of each name.
    pub interfaces: Names<u32>,
    pub interface_count: u32,
}

// By hand, so that a drop is one call: a derived one is written out wherever a `?` may need it, and a proof goes over each part.
impl Drop for UnitNames {
    fn drop(self) {
        let UnitNames {
            methods,
            classes,
            class_count: _,
            interfaces,
            interface_count: _,
        } = self;
        drop(methods);
        drop(classes);
        drop(interfaces);
    }
}

fn number_methods<A>(
    alloc: Global,
    names: &mut Names<()>,
    members: &[Member<A>],
) -> Result<(), NoMemory>
    ensures { OnOk result (keys_of names.new ≡ with_new (keys_of names.old) (map (λ m. m.name.text) (methods_in members.now))) }
{
    for member in members {
        if let Member::Method(method) = member {
            number(alloc, names, &method.name.text)?;
        }
    }
    Ok(())
}

fn add_class<A>(alloc: Global, names: &mut UnitNames, class: &ClassDecl<A>) -> Result<(), NoMemory>
    ensures classes { OnOk result ((classes : List (ClassDecl A)) → HasClasses names.old classes → HasClasses names.new (classes ++ class.now ∷ [])) }
    ensures interfaces { OnOk result ((interfaces : List (InterfaceDecl A)) → HasInterfaces names.old interfaces → HasInterfaces names.new interfaces) }
{
    note(
        alloc,
        &mut names.classes,
        &class.name.text,
        names.class_count,
    )?;
    number_methods(alloc, &mut names.methods, class.members.as_slice())?;
    names.class_count = next(names.class_count)?;
    Ok(())
}

fn add_interface<A>(
    alloc: Global,
    names: &mut UnitNames,
    interface: &InterfaceDecl<A>,
) -> Result<(), NoMemory>
    ensures classes { OnOk result ((classes : List (ClassDecl A)) → HasClasses names.old classes → HasClasses names.new classes) }
    ensures interfaces { OnOk result ((interfaces : List (InterfaceDecl A)) → HasInterfaces names.old interfaces → HasInterfaces names.new (interfaces ++ interface.now ∷ [])) }
{
    note(
        alloc,
        &mut names.interfaces,
        &interface.name.text,
        names.interface_count,
    )?;
    names.interface_count = next(names.interface_count)?;
    Ok(())
}

fn next(count: u32) -> Result<u32, NoMemory>
    ensures { IfOk result (λ n. n ≡ suc count) }
{
    if count == u32::MAX {
        return Err(NoMemory);
    }
    Ok(count + 1)
}

fn no_names(alloc: Global) -> UnitNames
    ensures methods { result.methods ≡ [] }
    ensures classes { result.classes ≡ [] }
    ensures class_count { result.class_count ≡ 0 }
    ensures interfaces { result.interfaces ≡ [] }
    ensures interface_count { result.interface_count ≡ 0 }
{
    UnitNames {
        methods: Names::new(alloc),
        classes: Names::new(alloc),
        class_count: 0,
        interfaces: Names::new(alloc),
        interface_count: 0,
    }
}

/// Adds the names of a declaration, if that is a class or an interface.
#[tactic(auto, using(crate::proofs::RowLaws::no_names_more))]
fn add_names<A>(alloc: Global, names: &mut UnitNames, decl: &Decl<A>) -> Result<(), NoMemory>
    ensures classes { OnOk result ((classes : List (ClassDecl A)) → HasClasses names.old classes → HasClasses names.new (classes ++ classes_in (decl.now ∷ []))) }
    ensures interfaces { OnOk result ((interfaces : List (InterfaceDecl A)) → HasInterfaces names.old interfaces → HasInterfaces names.new (interfaces ++ interfaces_in (decl.now ∷ []))) }
{
    match decl {
        Decl::Class(class) => add_class(alloc, names, class),
        Decl::Interface(interface) => add_interface(alloc, names, interface),
        Decl::Types(_, _) => Ok(()),
        Decl::Globals(_) => Ok(()),
        Decl::Function(_) => Ok(()),
        Decl::Program(_) => Ok(()),
        Decl::Configuration(_) => Ok(()),
    }
}

/// The names of the declarations.
pub fn names_of_unit<A>(alloc: Global, decls: &[Decl<A>]) -> Result<UnitNames, NoMemory>
    ensures classes { IfOk result (λ names. HasClasses names (classes_in decls.now)) }
    ensures interfaces { IfOk result (λ names. HasInterfaces names (interfaces_in decls.now)) }
{
    let mut names = no_names(alloc);
    for decl in decls {
        add_names(alloc, &mut names, decl)?;
    }
    Ok(names)
}
