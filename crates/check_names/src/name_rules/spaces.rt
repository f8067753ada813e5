//! Spaces of names, and the locals of routines.

ghost use Rattle.std.specs.Prelude.{◌≡◌, [], flat_map, IfOk};
ghost use Rattle.st_rules.specs.Faults.{least};
ghost use Rattle.st_unit_rules.specs.NameRules as rules;
ghost use Rattle.check_names.specs.name_spaces.NamesIn.{names_of};
ghost use Rattle.check_names.specs.name_rules.Spaces.{prototype_locals};

use crate::name_spaces::{HeldNames, named_fault, prototype_names, section_names, twice_fault};
use check_places::conversion_named;
use plc_text::{Code, NoMemory, Text};
use st_rules::{earlier, when};
use st_tree::{InterfaceDecl, Name, Prototype, Section};
use std::alloc::Global;

/// E04 where the name is that of a conversion.
pub fn conversion_fault(name: &Name) -> Option<(Code, u32)>
    ensures { result ≡ least (rules.name_of_conversion name.now) }
{
    when(conversion_named(&name.text).is_some(), Code::E04, name.line)
}

/// E04 at the least line of a name of a conversion.
fn conversions_fault(names: &[&Name]) -> Option<(Code, u32)>
    ensures { result ≡ least (flat_map rules.name_of_conversion (names_of names.now)) }
{
    let mut found = None;
    for name in names {
        found = earlier(found, conversion_fault(*name));
    }
    found
}

/// E04 at the least line of a name that stands again.
fn first_twice(alloc: Global, names: &[&Name]) -> Result<Option<(Code, u32)>, NoMemory>
    ensures { IfOk result (λ f. f ≡ least (rules.declared_twice [] (names_of names.now))) }
{
    let held = HeldNames::new(alloc);
    let fault = twice_fault(alloc, held, names)?;
    Ok(fault)
}

/// E04 at the least line of a name that stands again in its space, or is that of a conversion.
pub fn space_fault(alloc: Global, names: &[&Name]) -> Result<Option<(Code, u32)>, NoMemory>
    ensures { IfOk result (λ f. f ≡ least (rules.space_faults (names_of names.now))) }
{
    let twice = first_twice(alloc, names)?;
    let conversion = conversions_fault(names);
    Ok(earlier(twice, conversion))
}

/// E04 of the locals of a routine: in their space, or where one has the routine's name.
pub fn local_name_fault(
    alloc: Global,
    routine: &Text,
    sections: &[Section<u32>],
) -> Result<Option<(Code, u32)>, NoMemory>
    ensures { IfOk result (λ f. f ≡ least (rules.local_name_faults routine.now sections.now)) }
{
    let names = section_names(alloc, sections)?;
    let space = space_fault(alloc, &names)?;
    let named = named_fault(routine, &names);
    Ok(earlier(space, named))
}

/// E04 of the locals of the methods of an interface.
fn prototypes_fault(
    alloc: Global,
    methods: &[Prototype<u32>],
) -> Result<Option<(Code, u32)>, NoMemory>
    ensures { IfOk result (λ f. f ≡ least (flat_map prototype_locals methods.now)) }
{
    let mut found = None;
    for method in methods {
        let fault = local_name_fault(alloc, &method.name.text, method.sections.as_slice())?;
        found = earlier(found, fault);
    }
    Ok(found)
}

/// E04 of the methods of an interface and of their locals.
pub fn prototype_name_fault(
    alloc: Global,
    interface: &InterfaceDecl<u32>,
) -> Result<Option<(Code, u32)>, NoMemory>
    ensures { IfOk result (λ f. f ≡ least (rules.prototype_name_faults interface.now)) }
{
    let methods = interface.methods.as_slice();
    let names = prototype_names(alloc, methods)?;
    let space = space_fault(alloc, &names)?;
    let locals = prototypes_fault(alloc, methods)?;
    Ok(earlier(space, locals))
}
