//! The signatures of the methods of classes and function blocks.

ghost use Rattle.std.specs.Prelude.{[], ◌∷◌, ◌++◌, map, IfOk, OnOk};
ghost use Rattle.st_rules.specs.Classes.{classes_in, methods_in};
ghost use Rattle.check_signatures.specs.unit_signatures.Private.Adds.{Adds};
ghost use Rattle.check_signatures.specs.unit_signatures.Private.Parameters.{AreWeighed};
ghost use Rattle.check_signatures.specs.unit_signatures.Private.Routines as words;

use crate::unit_signatures::routines::routine;
use crate::unit_signatures::weighed::Weighed;
use default_values::worth_numbers::WorthNumbers;
use plc_text::{Items, NoMemory, one_more};
use st_rules::Signature;
use st_tree::{Decl, Member};
use std::alloc::Global;

fn add_member(
    alloc: Global,
    weighed: &Weighed<'_, '_>,
    table: &mut WorthNumbers,
    list: &mut Items<Signature<u32>>,
    class: u32,
    member: &Member<u32>,
) -> Result<(), NoMemory>
    ensures { OnOk result (Adds words.signature_tells (AreWeighed weighed.now) table.old table.new list.old list.new (map (words.method_signature weighed.now class) (methods_in (member.now ∷ [])))) }
{
    match member {
        Member::Method(method) => {
            let sections = method.sections.as_slice();
            let one = routine(
                alloc,
                weighed,
                table,
                Some(class),
                true,
                &method.name,
                &method.result,
                sections,
            )?;
            list.push(one)?;
            Ok(())
        }
        Member::Section(_) => Ok(()),
    }
}

/// The signatures of the methods among the members of a class.
fn methods(
    alloc: Global,
    weighed: &Weighed<'_, '_>,
    table: &mut WorthNumbers,
    class: u32,
    members: &[Member<u32>],
) -> Result<Items<Signature<u32>>, NoMemory>
    ensures { IfOk result (λ list. Adds words.signature_tells (AreWeighed weighed.now) table.old table.new [] list (map (words.method_signature weighed.now class) (methods_in members.now))) }
{
    let mut list = Items::new(alloc);
    for member in members {
        add_member(alloc, weighed, table, &mut list, class, member)?;
    }
    Ok(list)
}

/// Adds the methods of the class that a declaration is; the number of the next class.
fn add_declaration(
    alloc: Global,
    weighed: &Weighed<'_, '_>,
    table: &mut WorthNumbers,
    list: &mut Items<Items<Signature<u32>>>,
    number: u32,
    decl: &Decl<u32>,
) -> Result<u32, NoMemory>
    ensures { IfOk result (λ after. words.AddsClass weighed.now table.old table.new list.old list.new number after decl.now) }
{
    match decl {
        Decl::Class(class) => {
            let members = class.members.as_slice();
            let one = methods(alloc, weighed, table, number, members)?;
            list.push(one)?;
            let after = one_more(number)?;
            Ok(after)
        }
        Decl::Types(_, _) => Ok(number),
        Decl::Globals(_) => Ok(number),
        Decl::Interface(_) => Ok(number),
        Decl::Function(_) => Ok(number),
        Decl::Program(_) => Ok(number),
        Decl::Configuration(_) => Ok(number),
    }
}

/// The signatures of the methods of all classes, by their numbers.
pub fn class_signatures(
    alloc: Global,
    weighed: &Weighed<'_, '_>,
    table: &mut WorthNumbers,
    decls: &[Decl<u32>],
) -> Result<Items<Items<Signature<u32>>>, NoMemory>
    ensures { IfOk result (λ list. Adds words.list_tells (AreWeighed weighed.now) table.old table.new [] list (words.classes_from weighed.now 0 (classes_in decls.now))) }
{
    let mut list = Items::new(alloc);
    let mut number: u32 = 0;
    for decl in decls {
        number = add_declaration(alloc, weighed, table, &mut list, number, decl)?;
    }
    Ok(list)
}
