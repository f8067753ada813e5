//! What stands around a routine or a program, and what it declares in a scope.

ghost use Rattle.std.specs.Prelude.{◌≡◌, IfOk};
ghost use Rattle.st_unit_rules.specs.declaration_list.Written.{written_of};
ghost use Rattle.type_resolution.specs.told_locals.Around.{IsAround, declared_in};
ghost use Rattle.name_resolution.specs.Locals.{ArePlaces};
ghost use Rattle.type_resolution.specs.written_types.Types.{TellsConstant};
ghost use Rattle.type_resolution.specs.told_locals.Private.Telling.{scope_with};

use crate::declared_variables::{declared_locals, declared_program};
use crate::written_types::constant_of;
use class_tables::ClassTables;
use iface_tables::IfaceTables;
use name_resolution::{NameTables, Places, Scope, local_places};
use plc_text::{NoMemory, Series};
use st_rules::DeclaredVariable;
use st_tree::{Name, Section, TypeSpec};
use st_types::StType;
use st_unit_rules::declaration_list::WrittenName;
use std::alloc::Global;

/// What stands around a routine or a program: the tables of the unit, the class, where it is in one, and whether it is a method.
#[derive(Clone, Copy)]
pub struct Around<'a> {
    pub names: &'a NameTables,
    pub classes: &'a ClassTables,
    pub interfaces: &'a IfaceTables,
    pub class: Option<u32>,
    pub in_method: bool,
}

/// What declares locals: a function, a method or a method of an interface by its name, its result and its sections, or a program.
#[derive(Clone, Copy)]
pub enum Declaring<'a> {
    Routine(&'a Name, &'a Option<TypeSpec<u32>>, &'a [Section<u32>]),
    Program(&'a [Section<u32>]),
}

/// What is declared in a scope.
fn declared(
    alloc: Global,
    s: &Scope<'_>,
    of: &Declaring<'_>,
) -> Result<Series<DeclaredVariable>, NoMemory>
    ensures { IfOk result (λ vs. vs ≡ declared_in of.now s.now) }
{
    match of {
        Declaring::Routine(name, result_type, sections) => {
            let list = declared_locals(alloc, s, *name, *result_type, *sections)?;
            Ok(list)
        }
        Declaring::Program(sections) => {
            let list = declared_program(alloc, s, *sections)?;
            Ok(list)
        }
    }
}

/// The scope in which these locals are known.
fn scope_over<'a>(around: &Around<'a>, known: &'a [DeclaredVariable], places: Places) -> Scope<'a>
    requires around { IsAround around.now }
    requires places { ArePlaces places known.now }
    ensures { result ≡ scope_with around.now known.now }
{
    Scope::over(
        around.names,
        around.classes,
        around.interfaces,
        known,
        places,
        around.class,
        around.in_method,
    )
}

/// What is declared where these locals are known.
pub fn declared_with(
    alloc: Global,
    around: &Around<'_>,
    of: &Declaring<'_>,
    known: &[DeclaredVariable],
) -> Result<Series<DeclaredVariable>, NoMemory>
    requires { IsAround around.now }
    ensures { IfOk result (λ vs. vs ≡ declared_in of.now (scope_with around.now known.now)) }
{
    let places = local_places(alloc, known)?;
    let s = scope_over(around, known, places);
    let list = declared(alloc, &s, of)?;
    Ok(list)
}

/// What can be told of a constant where these locals are known, and where their names stand.
pub fn found_with(
    alloc: Global,
    around: &Around<'_>,
    known: &[DeclaredVariable],
    places: Places,
    name: &WrittenName<'_>,
) -> Result<(Option<(StType, i128)>, Places), NoMemory>
    requires around { IsAround around.now }
    requires places { ArePlaces places known.now }
    ensures told { IfOk result (λ r. TellsConstant r.0 (scope_with around.now known.now) (written_of name.now)) }
    ensures places { IfOk result (λ r. ArePlaces r.1 known.now) }
{
    let s = scope_over(around, known, places);
    let found = constant_of(alloc, &s, name)?;
    Ok((found, s.into_places()))
}
