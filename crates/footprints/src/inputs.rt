//! Which regions hold variables with addresses of inputs.

ghost use Rattle.std.specs.Prelude.{◌≡◌, map, option_map, IfOk};
ghost use Rattle.program_tables.specs.st_initial.Members.{Holds};
ghost use Rattle.program_tables.specs.st_initial.Variables.{variables_of};
ghost use Rattle.st_values.specs.Program as plain;
ghost use Rattle.st_values.specs.View.{program_of, region_of};
ghost use Rattle.footprints.specs.Private.Inputs as words;

use call_steps::class_of_kind;
use plc_text::{Items, NoMemory, Text};
use program_tables::{Members, Variable, members_of};
use st_tree::{Area, Program, RegionDecl, area_of};
use std::alloc::Global;

fn is_input(address: Option<&Text>) -> bool
    ensures { result ≡ words.is_input (option_map (λ a. a.now) address.entry) }
{
    match address {
        Some(address) => match area_of(address.as_str()) {
            Area::Input => true,
            Area::Output => false,
            Area::Memory => false,
        },
        None => false,
    }
}

fn any_input(variables: &[Variable<'_>]) -> bool
    ensures { result ≡ words.any_input (variables_of variables.now) }
{
    for variable in variables {
        if is_input(variable.address) {
            return true;
        }
    }
    false
}

/// Whether an instance of a class has an input among its variables.
fn class_has_input(classes: &[Items<Variable<'_>>], class: u32) -> bool
    ensures { result ≡ words.any_input (words.class_list classes.now class) }
{
    match classes.get(class as usize) {
        Some(variables) => any_input(variables.as_slice()),
        None => false,
    }
}

fn has_input(classes: &[Items<Variable<'_>>], region: &RegionDecl) -> bool
    ensures { result ≡ words.has_input_by classes.now (region_of region.now) }
{
    if region.program {
        class_has_input(classes, class_of_kind(&region.kind))
    } else {
        is_input(region.address.as_ref())
    }
}

fn marks(
    alloc: Global,
    classes: &[Items<Variable<'_>>],
    regions: &[RegionDecl],
) -> Result<Vec<bool>, NoMemory>
    ensures { IfOk result (λ marks. marks.items ≡ map (words.has_input_by classes.now) (map region_of regions.now)) }
{
    let mut marks = Vec::new(alloc);
    for region in regions {
        marks.push(has_input(classes, region))?;
    }
    Ok(marks)
}

/// Whether each region holds an input: has an address of one, or is a program with such a variable.
pub fn inputs(alloc: Global, program: &Program) -> Result<Vec<bool>, NoMemory>
    ensures { IfOk result (λ marks. marks.items ≡ words.are_inputs (program_of program.now)) }
{
    let members = members_of(alloc, program)?;
    let marks = marks(
        alloc,
        members.classes.as_slice(),
        program.regions.as_slice(),
    )?;
    Ok(marks)
}

pub fn is_marked(marks: &[bool], region: u32) -> bool
    ensures { result ≡ words.marked marks.now region }
{
    match marks.get(region as usize) {
        Some(mark) => *mark,
        None => false,
    }
}
