//! The signatures of the methods of interfaces.

ghost use Rattle.std.specs.Prelude.{[], ◌∷◌, map, IfOk, OnOk};
ghost use Rattle.st_rules.specs.Interfaces.{interfaces_in};
ghost use Rattle.check_signatures.specs.unit_signatures.Private.Adds.{Adds};
ghost use Rattle.check_signatures.specs.unit_signatures.Private.Parameters.{AreWeighed};
ghost use Rattle.check_signatures.specs.unit_signatures.Private.Routines as words;

use crate::unit_signatures::routines::routine;
use crate::unit_signatures::weighed::Weighed;
use default_values::worth_numbers::WorthNumbers;
use plc_text::{Items, NoMemory};
use st_rules::Signature;
use st_tree::{Decl, Prototype};
use std::alloc::Global;

fn add_prototype(
    alloc: Global,
    weighed: &Weighed<'_, '_>,
    table: &mut WorthNumbers,
    list: &mut Items<Signature<u32>>,
    method: &Prototype<u32>,
) -> Result<(), NoMemory>
    ensures { OnOk result (Adds words.signature_tells (AreWeighed weighed.now) table.old table.new list.old list.new (words.prototype_signature weighed.now method.now ∷ [])) }
{
    let sections = method.sections.as_slice();
    let one = routine(
        alloc,
        weighed,
        table,
        None,
        false,
        &method.name,
        &method.result,
        sections,
    )?;
    list.push(one)?;
    Ok(())
}

/// The signatures of the methods of an interface.
fn prototypes(
    alloc: Global,
    weighed: &Weighed<'_, '_>,
    table: &mut WorthNumbers,
    methods: &[Prototype<u32>],
) -> Result<Items<Signature<u32>>, NoMemory>
    ensures { IfOk result (λ list. Adds words.signature_tells (AreWeighed weighed.now) table.old table.new [] list (map (words.prototype_signature weighed.now) methods.now)) }
{
    let mut list = Items::new(alloc);
    for method in methods {
        add_prototype(alloc, weighed, table, &mut list, method)?;
    }
    Ok(list)
}

/// Adds the methods of the interface that a declaration is.
fn add_declaration(
    alloc: Global,
    weighed: &Weighed<'_, '_>,
    table: &mut WorthNumbers,
    list: &mut Items<Items<Signature<u32>>>,
    decl: &Decl<u32>,
) -> Result<(), NoMemory>
    ensures { OnOk result (Adds words.list_tells (AreWeighed weighed.now) table.old table.new list.old list.new (map (words.interface_signatures weighed.now) (interfaces_in (decl.now ∷ [])))) }
{
    match decl {
        Decl::Interface(interface) => {
            let one = prototypes(alloc, weighed, table, interface.methods.as_slice())?;
            list.push(one)?;
            Ok(())
        }
        Decl::Types(_, _) => Ok(()),
        Decl::Globals(_) => Ok(()),
        Decl::Class(_) => Ok(()),
        Decl::Function(_) => Ok(()),
        Decl::Program(_) => Ok(()),
        Decl::Configuration(_) => Ok(()),
    }
}

/// The signatures of the methods of all interfaces, by their numbers.
pub fn interface_signatures(
    alloc: Global,
    weighed: &Weighed<'_, '_>,
    table: &mut WorthNumbers,
    decls: &[Decl<u32>],
) -> Result<Items<Items<Signature<u32>>>, NoMemory>
    ensures { IfOk result (λ list. Adds words.list_tells (AreWeighed weighed.now) table.old table.new [] list (map (words.interface_signatures weighed.now) (interfaces_in decls.now))) }
{
    let mut list = Items::new(alloc);
    for decl in decls {
        add_declaration(alloc, weighed, table, &mut list, decl)?;
    }
    Ok(list)
}
