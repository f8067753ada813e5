//! Program instances, one by one.

ghost use Rattle.std.specs.Prelude.{◌≡◌, ◌+◌, ◌∷◌, [], ◌++◌, List, Option, option_map, IfOk, OnOk};
ghost use Rattle.st_types.specs.declared.st_type.StType.TheVariants as type;
ghost use Rattle.st_rules.specs.Expressions as expressions;
ghost use Rattle.st_rules.specs.Faults.{least};
ghost use Rattle.st_unit_rules.specs.declared_names.Declarations.{Region, of_instance};
ghost use Rattle.st_unit_rules.specs.Checked.{InstanceRegion};
ghost use Rattle.st_unit_rules.specs.DeclarationRules as rules;
ghost use Rattle.check_regions.specs.region_rules.Taken.{Holds};
ghost use Rattle.check_configurations.specs.program_instances.Programs.{HasPrograms};

use crate::program_instances::programs::UnitPrograms;
use check_regions::{InstancedProgram, TakenRegions};
use plc_text::{Code, NoMemory, Text};
use st_rules::told;
use st_tree::{InstanceSpec, Marks, RegionDecl};
use st_types::StType;
use std::alloc::Global;
use symbol_table::unit_tables::UnitTables;

/// What is found out about a program instance.
#[derive(Drop)]
pub struct CheckedInstance {
    /// The least rule that its region breaks, with its least line.
    pub least: Option<(Code, u32)>,
    /// Its region in the checked program.
    pub region: RegionDecl,
}

fn number_found(found: &Option<(u32, InstancedProgram<'_>)>) -> Option<u32>
    ensures { result ≡ option_map (λ f. f.0) found.now }
{
    match found {
        Some((number, _)) => Some(*number),
        None => None,
    }
}

fn program_found<'u>(found: &Option<(u32, InstancedProgram<'u>)>) -> Option<InstancedProgram<'u>>
    ensures { result ≡ option_map (λ f. f.1) found.now }
{
    match found {
        Some((_, program)) => Some(*program),
        None => None,
    }
}

/// The number of the type of a program's instances: programs are counted behind all classes.
fn type_number(classes: usize, program: u32) -> Result<u32, NoMemory>
    ensures { IfOk result (λ number. number ≡ classes + program) }
{
    match u32::try_from(classes) {
        Ok(classes) => {
            let number = classes.checked_add(program).ok_or(NoMemory)?;
            Ok(number)
        }
        Err(_) => Err(NoMemory),
    }
}

/// The type of the instances of the program with this number, as it is noted.
fn type_of_program(classes: usize, program: Option<u32>) -> Result<StType, NoMemory>
    ensures { IfOk result (λ kind. kind ≡ expressions.told (option_map (λ k. type.Instance (classes + k)) program)) }
{
    match program {
        Some(program) => {
            let number = type_number(classes, program)?;
            Ok(told(Some(StType::Instance(number))))
        }
        None => Ok(told(None)),
    }
}

/// Checks a program instance of a configuration: the least rule that its region breaks among those before it, at the line of PROGRAM, and
/// that region, which is taken behind those. Where no program has its name, which breaks another rule, its type is noted as DINT.
pub fn check_instance(
    alloc: Global,
    tables: &UnitTables<'_>,
    programs: &UnitPrograms<'_>,
    taken: &mut TakenRegions,
    instance: &InstanceSpec,
) -> Result<CheckedInstance, NoMemory>
    ensures fault { IfOk result (λ c. (before : List Region) → HasPrograms programs.now tables.now.decls → Holds taken.old tables.now.decls before → c.least ≡ least (rules.region_faults tables.now.decls before instance.now.line (of_instance instance.now))) }
    ensures taken { OnOk result ((before : List Region) → HasPrograms programs.now tables.now.decls → Holds taken.old tables.now.decls before → Holds taken.new tables.now.decls (before ++ of_instance instance.now ∷ [])) }
    ensures region { IfOk result (λ c. HasPrograms programs.now tables.now.decls → InstanceRegion tables.now.decls instance.now c.region) }
{
    let found = programs.program_named(&instance.program.text);
    let kind = type_of_program(tables.classes().len(), number_found(&found))?;
    let name = Text::copy(alloc, instance.name.text.as_str())?;
    let program = program_found(&found);
    let least = taken.take_instance(&program, instance.line);
    let region = RegionDecl {
        name,
        program: true,
        kind,
        marks: Marks::none(),
        initial: None,
        address: None,
    };
    Ok(CheckedInstance { least, region })
}
