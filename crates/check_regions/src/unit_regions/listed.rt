//! The regions of a unit, one by one.

ghost use Rattle.std.specs.Prelude.{◌≡◌, ◌++◌, ◌&&◌, not, map, flat_map, IfOk, OnOk};
ghost use Rattle.st_unit_rules.specs.declared_names.Declarations.{declarations_of, instances_of, of_instance, regions_of, region_of_global};
ghost use Rattle.st_unit_rules.specs.declaration_list.Listed.{declared_as};
ghost use Rattle.st_unit_rules.specs.declaration_list.Written.{written_of};
ghost use Rattle.st_unit_rules.specs.Checked.{unit_regions};
ghost use Rattle.check_regions.specs.unit_regions.Listed.{region_as};
ghost use Rattle.check_regions.specs.unit_regions.Private.Listed.{declares_configuration};

use plc_text::NoMemory;
use st_tree::{Decl, InstanceSpec};
use st_unit_rules::declaration_list::{Declared, WrittenName, list_declarations};
use std::alloc::Global;
use std::slice::from_ref;

/// A region of the store: a global that is no constant, or a program instance.
#[derive(Clone, Copy)]
pub enum UnitRegion<'a> {
    Global(WrittenName<'a>),
    Instance(&'a InstanceSpec),
}

/// Adds the region of a global.
fn add_global<'a>(list: &mut Vec<UnitRegion<'a>>, name: &WrittenName<'a>) -> Result<(), NoMemory>
    ensures { OnOk result (map region_as list.new.items ≡ map region_as list.old.items ++ region_of_global (written_of name.now)) }
{
    if !name.is_constant() {
        list.push(UnitRegion::Global(*name))?;
    }
    Ok(())
}

/// Adds the region of a declaration, if it has one.
fn add_declaration<'a>(
    list: &mut Vec<UnitRegion<'a>>,
    declared: &Declared<'a>,
) -> Result<(), NoMemory>
    ensures { OnOk result (map region_as list.new.items ≡ map region_as list.old.items ++ regions_of (declared_as declared.now)) }
{
    match declared {
        Declared::Global(name) => add_global(list, name)?,
        Declared::Entry(_) => {}
        Declared::Interface(_) => {}
        Declared::Class(_) => {}
        Declared::Function(_) => {}
        Declared::Program(_) => {}
        Declared::Configuration(_) => {}
    }
    Ok(())
}

fn add_declarations<'a>(
    list: &mut Vec<UnitRegion<'a>>,
    declared: &[Declared<'a>],
) -> Result<(), NoMemory>
    ensures { OnOk result (map region_as list.new.items ≡ map region_as list.old.items ++ flat_map regions_of (map declared_as declared.now)) }
{
    for one in declared {
        add_declaration(list, one)?;
    }
    Ok(())
}

fn add_instances<'a>(
    list: &mut Vec<UnitRegion<'a>>,
    instances: &'a [InstanceSpec],
) -> Result<(), NoMemory>
    ensures { OnOk result (map region_as list.new.items ≡ map region_as list.old.items ++ map of_instance instances.now) }
{
    for instance in instances {
        list.push(UnitRegion::Instance(instance))?;
    }
    Ok(())
}

/// Adds the instances of a configuration, if it is the first one.
fn add_configured<'a>(
    list: &mut Vec<UnitRegion<'a>>,
    decl: &'a Decl<u32>,
    first: bool,
) -> Result<(), NoMemory>
    ensures { OnOk result (map region_as list.new.items ≡ map region_as list.old.items ++ instances_of first decl.now) }
{
    if !first {
        return Ok(());
    }
    match decl {
        Decl::Configuration(configuration) => {
            add_instances(list, configuration.instances.as_slice())?
        }
        Decl::Types(_, _) => {}
        Decl::Globals(_) => {}
        Decl::Interface(_) => {}
        Decl::Class(_) => {}
        Decl::Function(_) => {}
        Decl::Program(_) => {}
    }
    Ok(())
}

fn is_configuration(decl: &Decl<u32>) -> bool
    ensures { result ≡ declares_configuration decl.now }
{
    matches!(decl, Decl::Configuration(_))
}

/// Whether no configuration stands before what is behind the declaration.
fn is_still_first(first: bool, decl: &Decl<u32>) -> bool
    ensures { result ≡ (first && not (declares_configuration decl.now)) }
{
    first && !is_configuration(decl)
}

/// What a declaration of the text declares.
fn declared_in<'a>(alloc: Global, decl: &'a Decl<u32>) -> Result<Vec<Declared<'a>>, NoMemory>
    ensures { IfOk result (λ list. map declared_as list.items ≡ declarations_of decl.now) }
{
    let list = list_declarations(alloc, from_ref(decl))?;
    Ok(list)
}

/// Adds the regions of a declaration of the text; `first` where no configuration stands before it.
fn add_regions<'a>(
    alloc: Global,
    list: &mut Vec<UnitRegion<'a>>,
    decl: &'a Decl<u32>,
    first: bool,
) -> Result<(), NoMemory>
    ensures { OnOk result (map region_as list.new.items ≡ map region_as list.old.items ++ (flat_map regions_of (declarations_of decl.now) ++ instances_of first decl.now)) }
{
    let declared = declared_in(alloc, decl)?;
    add_declarations(list, &declared)?;
    add_configured(list, decl, first)?;
    Ok(())
}

/// The regions of a unit in the order of the text: globals that are no constants, and behind those of the first configuration its program
/// instances. The place in the list is the number of the region.
pub fn list_regions<'a>(
    alloc: Global,
    decls: &'a [Decl<u32>],
) -> Result<Vec<UnitRegion<'a>>, NoMemory>
    ensures { IfOk result (λ list. map region_as list.items ≡ unit_regions decls.now) }
{
    let mut list = Vec::new(alloc);
    let mut first = true;
    for decl in decls {
        add_regions(alloc, &mut list, decl, first)?;
        first = is_still_first(first, decl);
    }
    Ok(list)
}
