//! The bases of the classes of a unit.

ghost use Rattle.std.specs.Prelude.{◌≡◌, map, IfOk};
ghost use Rattle.st_rules.specs.Classes.{classes_in};
ghost use Rattle.name_resolution.specs.Private.Bases.{base_number, bases_by, is_derived};

use iface_tables::ClassTables;
use plc_text::NoMemory;
use st_tree::{Decl, Unit, Used};
use std::alloc::Global;

fn base_number(classes: &ClassTables, base: &Option<Used<u32>>) -> Option<u32>
    ensures { result ≡ base_number (classes_in classes.now.decls) base.now }
{
    match base {
        Some(base) => classes.class_named(&base.text),
        None => None,
    }
}

fn bases_in(
    alloc: Global,
    classes: &ClassTables,
    decls: &[Decl<u32>],
) -> Result<Vec<Option<u32>>, NoMemory>
    ensures { IfOk result (λ bases. bases.items ≡ bases_by (classes_in classes.now.decls) (classes_in decls.now)) }
{
    let mut bases = Vec::new(alloc);
    for decl in decls {
        if let Decl::Class(class) = decl {
            bases.push(base_number(classes, &class.base))?;
        }
    }
    Ok(bases)
}

/// The number of the base of each class, where it has one that is found.
pub fn bases_of(
    alloc: Global,
    classes: &ClassTables,
    unit: &Unit,
) -> Result<Vec<Option<u32>>, NoMemory>
    requires { classes.now ≡ unit.now }
    ensures { IfOk result (λ bases. bases.items ≡ bases_by (classes_in unit.now.decls) (classes_in unit.now.decls)) }
{
    bases_in(alloc, classes, unit.decls.as_slice())
}

/// Whether each class of a unit has EXTENDS.
pub fn derived_in(alloc: Global, decls: &[Decl<u32>]) -> Result<Vec<bool>, NoMemory>
    ensures { IfOk result (λ derived. derived.items ≡ map is_derived (classes_in decls.now)) }
{
    let mut derived = Vec::new(alloc);
    for decl in decls {
        if let Decl::Class(class) = decl {
            derived.push(class.base.is_some())?;
        }
    }
    Ok(derived)
}
