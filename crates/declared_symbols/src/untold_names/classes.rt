//! Classes and interfaces of which nothing is told.

ghost use Rattle.std.specs.Prelude.{◌≡◌, ◌∷◌, [], ◌++◌, map, IfOk, OnOk};
ghost use Rattle.st_rules.specs.Interfaces.{interfaces_in};
ghost use Rattle.declared_symbols.specs.untold_names.Untold as untold;

use crate::untold_names::routines::{untold_methods, untold_prototypes};
use crate::untold_names::variables::untold_members;
use plc_text::{Items, NoMemory};
use st_rules::{DeclaredClass, DeclaredRoutine};
use st_tree::{ClassDecl, Decl};
use st_unit_rules::declaration_list::written_members;
use std::alloc::Global;

/// A class or a function block, whose variables are numbered behind those of its bases: the next variable of an instance and the next
/// local of the body have these numbers.
pub fn untold_class(
    alloc: Global,
    first_variable: u32,
    first_local: u32,
    class: &ClassDecl<u32>,
) -> Result<DeclaredClass, NoMemory>
    ensures { IfOk result (λ c. c ≡ untold.untold_class first_variable first_local class.now) }
{
    let names = written_members(alloc, class.members.as_slice())?;
    let variables = untold_members(alloc, first_variable, first_local, &names)?;
    let methods = untold_methods(alloc, class.members.as_slice())?;
    Ok(DeclaredClass {
        sort: class.sort,
        variables,
        methods,
    })
}

fn add_interface(
    alloc: Global,
    list: &mut Items<Items<DeclaredRoutine>>,
    decl: &Decl<u32>,
) -> Result<(), NoMemory>
    ensures { OnOk result (list.new ≡ list.old ++ map (λ d. map untold.untold_prototype d.methods) (interfaces_in (decl.now ∷ []))) }
{
    match decl {
        Decl::Interface(interface) => {
            let methods = untold_prototypes(alloc, interface.methods.as_slice())?;
            list.push(methods)?;
        }
        _ => {}
    }
    Ok(())
}

/// The methods of the interfaces of a unit, in the order of the text.
pub fn untold_interfaces(
    alloc: Global,
    decls: &[Decl<u32>],
) -> Result<Items<Items<DeclaredRoutine>>, NoMemory>
    ensures { IfOk result (λ list. list ≡ untold.untold_interfaces decls.now) }
{
    let mut list = Items::new(alloc);
    for decl in decls {
        add_interface(alloc, &mut list, decl)?;
    }
    Ok(list)
}
