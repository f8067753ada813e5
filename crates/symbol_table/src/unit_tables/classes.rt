//! The classes of a unit, in the order of the text.

ghost use Rattle.std.specs.Prelude.{◌≡◌, ◌++◌, ◌∷◌, [], IfOk, OnOk};
ghost use Rattle.st_rules.specs.Classes.{classes_in};
ghost use Rattle.section_rules.specs.Variables.{classes_of};

use plc_text::NoMemory;
use st_tree::{ClassDecl, Decl};
use std::alloc::Global;

fn add_class<'a>(list: &mut Vec<&'a ClassDecl<u32>>, decl: &'a Decl<u32>) -> Result<(), NoMemory>
    ensures { OnOk result (classes_of list.new.items ≡ classes_of list.old.items ++ classes_in (decl.now ∷ [])) }
{
    if let Decl::Class(class) = decl {
        list.push(class)?;
    }
    Ok(())
}

/// The classes and function blocks of declarations, by their numbers.
pub fn list_classes(alloc: Global, decls: &[Decl<u32>]) -> Result<Vec<&ClassDecl<u32>>, NoMemory>
    ensures { IfOk result (λ list. classes_of list.items ≡ classes_in decls.now) }
{
    let mut list = Vec::new(alloc);
    for decl in decls {
        add_class(&mut list, decl)?;
    }
    Ok(list)
}
