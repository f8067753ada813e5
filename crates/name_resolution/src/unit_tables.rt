//! All tables of the names of a unit, made by groups, so that little is dropped where memory ends.

ghost use Rattle.std.specs.Prelude.{◌≡◌, ℕ, true, List, None, map, IfOk};
ghost use Rattle.st_rules.specs.Classes.{classes_in};
ghost use Rattle.st_rules.specs.Scope as scope;
ghost use Rattle.name_resolution.specs.Private.Bases.{bases_by, is_derived};
ghost use Rattle.name_resolution.specs.Private.Climb.{AreTablesOf};
ghost use Rattle.name_resolution.specs.Private.Enumerators as enumerators;
ghost use Rattle.name_resolution.specs.Private.Places as places;
ghost use Rattle.name_resolution.specs.Private.Places.{IsTableOf, AreTables};
ghost use Rattle.name_resolution.specs.Private.Tables.{AreNameTables};
ghost use Rattle.name_resolution.specs.declared.places.Which.TheVariants as which;

use crate::bases::{bases_of, derived_in};
use crate::climb::tables_of;
use crate::enumerators::{first_enumerations, last_enumerations};
use crate::places::{Numbers, Places, Which, global_variables, globals, types};
use crate::tables::{fields_of, values_of};
use iface_tables::ClassTables;
use plc_text::NoMemory;
use st_rules::{DeclaredClass, DeclaredNames, TypeParts};
use st_tree::Unit;
use std::alloc::Global;

/// By the number of a class: its base, and whether it has EXTENDS.
#[derive(Drop)]
pub struct Based {
    pub bases: Vec<Option<u32>>,
    pub derived: Vec<bool>,
}

/// Where the types and the globals of a unit stand.
#[derive(Drop)]
pub struct Shared {
    pub types: Places,
    pub globals: Places,
    pub variables: Places,
}

/// Enumerations and structures.
#[derive(Drop)]
pub struct Parted {
    pub first: Numbers,
    pub last: Numbers,
    pub values: Vec<Numbers>,
    pub fields: Vec<Numbers>,
}

/// The variables of classes.
#[derive(Drop)]
pub struct Classed {
    pub all: Vec<Places>,
    pub inherited: Vec<Places>,
    pub of_instance: Vec<Places>,
}

/// All tables of a unit.
#[derive(Drop)]
pub struct UnitTables {
    pub based: Based,
    pub shared: Shared,
    pub parted: Parted,
    pub classed: Classed,
}

fn base_tables(alloc: Global, unit: &Unit, classes: &ClassTables) -> Result<Based, NoMemory>
    requires { classes.now ≡ unit.now }
    ensures bases { IfOk result (λ t. t.bases.items ≡ bases_by (classes_in unit.now.decls) (classes_in unit.now.decls)) }
    ensures derived { IfOk result (λ t. t.derived.items ≡ map is_derived (classes_in unit.now.decls)) }
{
    let bases = bases_of(alloc, classes, unit)?;
    let derived = derived_in(alloc, unit.decls.as_slice())?;
    Ok(Based { bases, derived })
}

fn shared_tables(alloc: Global, names: &DeclaredNames) -> Result<Shared, NoMemory>
    ensures types { IfOk result (λ t. IsTableOf (λ d. d.name) (λ d. true) t.types names.now.types) }
    ensures globals { IfOk result (λ t. IsTableOf scope.global_name (λ g. true) t.globals names.now.globals) }
    ensures variables { IfOk result (λ t. IsTableOf scope.global_name places.is_variable t.variables names.now.globals) }
{
    let types = types(alloc, names.types.as_slice())?;
    let all = globals(alloc, names.globals.as_slice())?;
    let variables = global_variables(alloc, names.globals.as_slice())?;
    Ok(Shared {
        types,
        globals: all,
        variables,
    })
}

fn part_tables(alloc: Global, parts: &[TypeParts]) -> Result<Parted, NoMemory>
    ensures first { IfOk result (λ t. (name : List ℕ) → places.found_in t.first name ≡ enumerators.first_having 0 parts.now name) }
    ensures last { IfOk result (λ t. (name : List ℕ) → places.found_in t.last name ≡ enumerators.last_having None 0 parts.now name) }
    ensures values { IfOk result (λ t. AreTables (λ n. n) (λ n. true) scope.value_names t.values.items parts.now) }
    ensures fields { IfOk result (λ t. AreTables (λ f. f.name) (λ f. true) scope.field_list t.fields.items parts.now) }
{
    let first = first_enumerations(alloc, parts)?;
    let last = last_enumerations(alloc, parts)?;
    let values = values_of(alloc, parts)?;
    let fields = fields_of(alloc, parts)?;
    Ok(Parted {
        first,
        last,
        values,
        fields,
    })
}

fn variable_tables(alloc: Global, classes: &[DeclaredClass]) -> Result<Classed, NoMemory>
    ensures all { IfOk result (λ t. AreTablesOf (places.passes which.All) t.all.items classes.now) }
    ensures inherited { IfOk result (λ t. AreTablesOf (places.passes which.Inherited) t.inherited.items classes.now) }
    ensures of_instance { IfOk result (λ t. AreTablesOf (places.passes which.OfInstance) t.of_instance.items classes.now) }
{
    let all = tables_of(alloc, classes, Which::All)?;
    let inherited = tables_of(alloc, classes, Which::Inherited)?;
    let of_instance = tables_of(alloc, classes, Which::OfInstance)?;
    Ok(Classed {
        all,
        inherited,
        of_instance,
    })
}

/// All tables of a unit, from what it declares.
pub fn tables_of_unit(
    alloc: Global,
    unit: &Unit,
    classes: &ClassTables,
    names: &DeclaredNames,
) -> Result<UnitTables, NoMemory>
    requires { classes.now ≡ unit.now }
    ensures are { IfOk result (λ t. AreNameTables names.now t.shared.types t.shared.globals t.shared.variables t.parted.first t.parted.last t.parted.values.items t.parted.fields.items t.classed.all.items t.classed.inherited.items t.classed.of_instance.items) }
    ensures bases { IfOk result (λ t. t.based.bases.items ≡ bases_by (classes_in unit.now.decls) (classes_in unit.now.decls)) }
    ensures derived { IfOk result (λ t. t.based.derived.items ≡ map is_derived (classes_in unit.now.decls)) }
{
    let based = base_tables(alloc, unit, classes)?;
    let shared = shared_tables(alloc, names)?;
    let parted = part_tables(alloc, names.parts.as_slice())?;
    let classed = variable_tables(alloc, names.classes.as_slice())?;
    Ok(UnitTables {
        based,
        shared,
        parted,
        classed,
    })
}
