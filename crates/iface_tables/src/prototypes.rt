//! The names of the methods of interfaces.

ghost use Rattle.std.specs.Prelude.{◌≡◌, [], ◌∷◌, ◌++◌, map, IfOk, OnOk};
ghost use Rattle.st_rules.specs.Interfaces.{interfaces_in, prototype_names};

use plc_text::{Items, NoMemory, Text};
use st_tree::{Decl, InterfaceDecl, Prototype};
use std::alloc::Global;

fn add_name<A>(
    alloc: Global,
    names: &mut Items<Text>,
    prototype: &Prototype<A>,
) -> Result<(), NoMemory>
    ensures { OnOk result (names.new ≡ names.old ++ prototype.now.name.text ∷ []) }
{
    let name = Text::copy(alloc, prototype.name.text.as_str())?;
    names.push(name)?;
    Ok(())
}

/// The names of the methods of an interface.
fn names_of<A>(alloc: Global, interface: &InterfaceDecl<A>) -> Result<Items<Text>, NoMemory>
    ensures { IfOk result (λ names. names ≡ prototype_names interface.now) }
{
    let mut names = Items::new(alloc);
    for prototype in interface.methods.as_slice() {
        add_name(alloc, &mut names, prototype)?;
    }
    Ok(names)
}

/// Adds the names of a declaration's methods, if that is an interface.
#[tactic(auto, using(crate::proofs::PrototypeLaws::no_more))]
fn add_names<A>(alloc: Global, all: &mut Items<Items<Text>>, decl: &Decl<A>) -> Result<(), NoMemory>
    ensures { OnOk result (all.new ≡ all.old ++ map prototype_names (interfaces_in (decl.now ∷ []))) }
{
    match decl {
        Decl::Interface(interface) => add_interface(alloc, all, interface),
        Decl::Types(_, _) => Ok(()),
        Decl::Globals(_) => Ok(()),
        Decl::Class(_) => Ok(()),
        Decl::Function(_) => Ok(()),
        Decl::Program(_) => Ok(()),
        Decl::Configuration(_) => Ok(()),
    }
}

fn add_interface<A>(
    alloc: Global,
    all: &mut Items<Items<Text>>,
    interface: &InterfaceDecl<A>,
) -> Result<(), NoMemory>
    ensures { OnOk result (all.new ≡ all.old ++ prototype_names interface.now ∷ []) }
{
    let names = names_of(alloc, interface)?;
    all.push(names)?;
    Ok(())
}

/// The names of the methods of each interface.
pub fn all_prototypes<A>(alloc: Global, decls: &[Decl<A>]) -> Result<Items<Items<Text>>, NoMemory>
    ensures { IfOk result (λ all. all ≡ map prototype_names (interfaces_in decls.now)) }
{
    let mut all = Items::new(alloc);
    for decl in decls {
        add_names(alloc, &mut all, decl)?;
    }
    Ok(all)
}
