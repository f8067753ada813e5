//! The rules that the names of an item share and that hang on its type alone.

ghost use Rattle.std.specs.Prelude.{◌≡◌, option_map};
ghost use Rattle.st_tree.specs.Initial.{initial_of};
ghost use Rattle.st_rules.specs.Faults.{least};
ghost use Rattle.st_unit_rules.specs.declared_names.Variables as variables;
ghost use Rattle.section_rules.specs.Home.{home_of};
ghost use Rattle.section_rules.specs.Variables.{classes_of};
ghost use Rattle.check_declared_variables.specs.variable_rules.Private.Rules.{constant_faults, own_faults, may_be_located};

use plc_text::Code;
use section_rules::{
    Home, address_fault, constant_fault, instance_of_abstract_class, instance_out_of_place,
    may_have_address, may_hold_instances,
};
use st_rules::{earlier, is_constant, is_external};
use st_tree::{ClassDecl, Init, Item, Section};
use st_types::StType;

/// Whether a section declares constants. Of an external CONSTANT says nothing.
fn declares_constants(section: &Section<u32>) -> bool
    ensures { result ≡ variables.declares_constants section.now }
{
    is_constant(section.modifiers.as_slice()) && !is_external(section.sort)
}

fn may_be_located(home: Home, section: &Section<u32>) -> bool
    ensures { result ≡ may_be_located (home_of home) section.now }
{
    may_have_address(home, section.sort) && !declares_constants(section)
}

/// What a constant breaks, where the section declares constants.
fn constant_if(
    section: &Section<u32>,
    line: u32,
    kind: &Option<StType>,
    initial: &Option<Init<u32>>,
) -> Option<(Code, u32)>
    ensures { result ≡ least (constant_faults section.now line kind.now (option_map initial_of initial.now)) }
{
    if declares_constants(section) {
        constant_fault(line, kind, initial)
    } else {
        None
    }
}

/// What an item of this type breaks at this line: instances and addresses that may not stand there, and constants of a wrong type. The
/// classes are those of the unit.
pub fn own_fault(
    classes: &[&ClassDecl<u32>],
    home: Home,
    section: &Section<u32>,
    item: &Item<u32>,
    line: u32,
    kind: &Option<StType>,
) -> Option<(Code, u32)>
    ensures { result ≡ least (own_faults (classes_of classes.now) (home_of home) section.now item.now line kind.now) }
{
    let place = instance_out_of_place(line, may_hold_instances(home, section.sort), kind);
    let of_abstract = instance_of_abstract_class(line, classes, section.sort, kind);
    let constant = constant_if(section, line, kind, &item.initial);
    let address = address_fault(line, may_be_located(home, section), kind, &item.address);
    earlier(earlier(earlier(place, of_abstract), constant), address)
}
