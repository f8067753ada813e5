//! The names of a unit, found by hash: what all texts of the unit share.

ghost use Rattle.std.specs.Prelude.{◌≡◌, true, List, IfOk, MatchOption, None, Some, option_map, option_and_then, slice_get};
ghost use Rattle.std.specs.Option.{is_some};
ghost use Rattle.std.specs.List.{list_any};
ghost use Rattle.st_rules.specs.declared.names.DeclaredGlobal.{DeclaredGlobal as AGlobal};
ghost use Rattle.st_rules.specs.declared.names.TypeParts.{TypeParts as Parts};
ghost use Rattle.st_rules.specs.Named.{first_place};
ghost use Rattle.st_rules.specs.Chains.{nearest};
ghost use Rattle.st_rules.specs.Classes.{base_of as base_in_unit, chain, classes_in};
ghost use Rattle.st_rules.specs.Scope as scope;
ghost use Rattle.st_rules.specs.Scope.{first_named, Scope as AScope};
ghost use Rattle.st_rules.specs.Telling.{with_type, with_global, with_member};
ghost use Rattle.name_resolution.specs.Tables.{Holds, Knows};
ghost use Rattle.name_resolution.specs.Private.Enumerators as enumerators;
ghost use Rattle.name_resolution.specs.Private.Places as places;
ghost use Rattle.name_resolution.specs.Private.Routines as routines;
ghost use Rattle.name_resolution.specs.Private.Tables.{AreNameTables};
ghost use Rattle.name_resolution.specs.Private.Places.{IsTableOf, AreTables, items_at};

use crate::chain::chain_of;
use crate::climb::{base_of, nearest_variable, own_variable, variables_at_class};
use crate::places::{Numbers, Places, fields, number_of, place_of, values};
use crate::routines::{is_block, method_at, prototype_at};
use crate::telling::{tell_entry, tell_in_class, tell_shared};
use crate::unit_tables::{UnitTables, tables_of_unit};
use iface_tables::ClassTables;
use plc_text::{NoMemory, Text};
use st_rules::{
    DeclaredField, DeclaredGlobal, DeclaredNames, DeclaredRoutine, DeclaredType, DeclaredVariable,
    MethodId, PrototypeId, TypeParts,
};
use st_tree::{Target, Unit};
use st_types::StType;
use std::alloc::Global;
use std::marker::Model;

pub fn value_names(part: &TypeParts) -> &[Text]
    ensures { result.now ≡ scope.value_names part.now }
{
    match part {
        TypeParts::Values(names) => names.as_slice(),
        _ => &[],
    }
}

fn field_list(part: &TypeParts) -> &[DeclaredField]
    ensures { result.now ≡ scope.field_list part.now }
{
    match part {
        TypeParts::Fields(all) => all.as_slice(),
        _ => &[],
    }
}

pub fn values_of(alloc: Global, parts: &[TypeParts]) -> Result<Vec<Numbers>, NoMemory>
    ensures { IfOk result (λ tables. AreTables (λ n. n) (λ n. true) scope.value_names tables.items parts.now) }
{
    let mut tables = Vec::new(alloc);
    for part in parts {
        let table = values(alloc, value_names(part))?;
        tables.push(table)?;
    }
    Ok(tables)
}

pub fn fields_of(alloc: Global, parts: &[TypeParts]) -> Result<Vec<Numbers>, NoMemory>
    ensures { IfOk result (λ tables. AreTables (λ f. f.name) (λ f. true) scope.field_list tables.items parts.now) }
{
    let mut tables = Vec::new(alloc);
    for part in parts {
        let table = fields(alloc, field_list(part))?;
        tables.push(table)?;
    }
    Ok(tables)
}

fn type_there(all: &[DeclaredType], place: Option<usize>) -> Option<&DeclaredType>
    ensures { MatchOption result (option_and_then (slice_get all.now) place ≡ None) (λ t. option_and_then (slice_get all.now) place ≡ Some t.now) }
{
    all.get(place?)
}

/// The first type of the name.
fn type_at<'a>(table: &Places, all: &'a [DeclaredType], name: &Text) -> Option<&'a DeclaredType>
    requires { IsTableOf (λ t. t.name) (λ t. true) table.now all.now }
    ensures { MatchOption result (scope.type_named name.now all.now ≡ None) (λ t. scope.type_named name.now all.now ≡ Some t.now) }
{
    type_there(all, place_of(table, name))
}

fn global_there(all: &[DeclaredGlobal], place: Option<usize>) -> Option<&DeclaredGlobal>
    ensures { MatchOption result (option_and_then (slice_get all.now) place ≡ None) (λ g. option_and_then (slice_get all.now) place ≡ Some g.now) }
{
    all.get(place?)
}

/// The first global or function of the name.
fn global_at<'a>(
    table: &Places,
    all: &'a [DeclaredGlobal],
    name: &Text,
) -> Option<&'a DeclaredGlobal>
    requires { IsTableOf scope.global_name (λ g. true) table.now all.now }
    ensures { MatchOption result (first_named scope.global_name name.now all.now ≡ None) (λ g. first_named scope.global_name name.now all.now ≡ Some g.now) }
{
    global_there(all, place_of(table, name))
}

/// Whether there is a global variable of the name.
fn has_variable(table: &Places, name: &Text) -> bool
    ensures { (all : List AGlobal) → IsTableOf scope.global_name places.is_variable table.now all → result ≡ list_any (scope.is_global_variable name.now) all }
{
    place_of(table, name).is_some()
}

fn table_there(tables: &[Numbers], n: u32) -> Option<&Numbers>
    ensures { MatchOption result (slice_get tables.now n ≡ None) (λ t. slice_get tables.now n ≡ Some t.now) }
{
    tables.get(n as usize)
}

/// The number of a value in an enumeration.
fn value_at(tables: &[Numbers], n: u32, name: &Text) -> Option<u32>
    ensures { (parts : List Parts) → AreTables (λ n. n) (λ n. true) scope.value_names tables.now parts → result ≡ first_place name.now (items_at scope.value_names parts n) }
{
    match table_there(tables, n) {
        Some(table) => number_of(table, name),
        None => None,
    }
}

fn fields_at(parts: &[TypeParts], n: u32) -> &[DeclaredField]
    ensures { result.now ≡ items_at scope.field_list parts.now n }
{
    match parts.get(n as usize) {
        Some(part) => field_list(part),
        None => &[],
    }
}

fn field_there(all: &[DeclaredField], k: Option<u32>) -> Option<(u32, &DeclaredField)>
    ensures { MatchOption result (option_and_then (places.numbered_at all.now) k ≡ None) (λ x. option_and_then (places.numbered_at all.now) k ≡ Some (x.0, x.1.now)) }
{
    let k = k?;
    match all.get(k as usize) {
        Some(field) => Some((k, field)),
        None => None,
    }
}

/// A field of a structure, with its number.
fn field_at<'a>(
    tables: &[Numbers],
    parts: &'a [TypeParts],
    n: u32,
    name: &Text,
) -> Option<(u32, &'a DeclaredField)>
    requires { AreTables (λ f. f.name) (λ f. true) scope.field_list tables.now parts.now }
    ensures { MatchOption result (scope.field_from 0 name.now (items_at scope.field_list parts.now n) ≡ None) (λ x. scope.field_from 0 name.now (items_at scope.field_list parts.now n) ≡ Some (x.0, x.1.now)) }
{
    match table_there(tables, n) {
        Some(table) => field_there(fields_at(parts, n), number_of(table, name)),
        None => None,
    }
}

/// The first enumeration where it is the last.
fn lone(first: Option<u32>, last: Option<u32>) -> Option<u32>
    ensures { result ≡ enumerators.lone first last }
{
    match (first, last) {
        (Some(n), Some(m)) => { if n == m { Some(n) } else { None } }
        _ => None,
    }
}

/// The names of a unit, found by hash, on cycles of bases too. Contracts see what the unit declares, and the base of each class.
pub struct NameTables {
    names: DeclaredNames,
    bases: Vec<Option<u32>>,
    derived: Vec<bool>,
    types: Places,
    globals: Places,
    variables: Places,
    first: Numbers,
    last: Numbers,
    values: Vec<Numbers>,
    fields: Vec<Numbers>,
    all: Vec<Places>,
    inherited: Vec<Places>,
    of_instance: Vec<Places>,
}

// By hand, so that a drop is one call: a derived one is written out wherever a `?` may need it.
impl Drop for NameTables {
    fn drop(self) {
        let NameTables {
            names: _,
            bases: _,
            derived: _,
            types: _,
            globals: _,
            variables: _,
            first: _,
            last: _,
            values: _,
            fields: _,
            all: _,
            inherited: _,
            of_instance: _,
        } = self;
    }
}

impl Model for NameTables {
    ghost use Rattle.name_resolution.specs.Tables.{Told};
    ghost use Rattle.name_resolution.specs.Private.Tables.{AreNameTables};
    ghost use Rattle.std.specs.Coded.{codes};
    ghost use Rattle.st_types.specs.contracts.st_type.StType as kind;

    ghost Value = { Told };

    ghost coded = { Prim.hlevel (codes, kind.the_row.coded) };

    ghost view = { λ t. record { names = t.names; bases = t.bases.items; derived = t.derived.items } };

    ghost invariant = { λ t. AreNameTables t.names t.types t.globals t.variables t.first t.last t.values.items t.fields.items t.all.items t.inherited.items t.of_instance.items };
}

impl NameTables {
    /// The tables of a unit, from what it declares, told in the order of its text.
    pub fn build(
        alloc: Global,
        unit: &Unit,
        classes: &ClassTables,
        names: DeclaredNames,
    ) -> Result<NameTables, NoMemory>
        requires { classes.now ≡ unit.now }
        ensures names { IfOk result (λ t. t.names ≡ names) }
        ensures knows { IfOk result (λ t. Knows t (classes_in unit.now.decls)) }
    {
        match tables_of_unit(alloc, unit, classes, &names) {
            Ok(tables) => Ok(NameTables::with_names(names, tables)),
            Err(stop) => Err(stop),
        }
    }

    fn with_names(names: DeclaredNames, tables: UnitTables) -> NameTables
        requires { AreNameTables names tables.shared.types tables.shared.globals tables.shared.variables tables.parted.first tables.parted.last tables.parted.values.items tables.parted.fields.items tables.classed.all.items tables.classed.inherited.items tables.classed.of_instance.items }
        ensures { result ≡ record { names = names; bases = tables.based.bases.items; derived = tables.based.derived.items } }
    {
        let UnitTables {
            based,
            shared,
            parted,
            classed,
        } = tables;
        NameTables {
            names,
            bases: based.bases,
            derived: based.derived,
            types: shared.types,
            globals: shared.globals,
            variables: shared.variables,
            first: parted.first,
            last: parted.last,
            values: parted.values,
            fields: parted.fields,
            all: classed.all,
            inherited: classed.inherited,
            of_instance: classed.of_instance,
        }
    }

    /// From now on the entry of TYPE, the class or the interface at the place has this type. No such place: nothing changes.
    pub fn tell_type(&mut self, place: u32, kind: StType)
        ensures names { self.new.names ≡ with_type self.old.names place kind }
        ensures bases { self.new.bases ≡ self.old.bases }
        ensures derived { self.new.derived ≡ self.old.derived }
    {
        tell_entry(&mut self.names.types, place, kind);
    }

    /// From now on the constant at the place among the globals and functions has this type and means this. No such place, or a
    /// function's: nothing changes.
    pub fn tell_global(&mut self, place: u32, kind: StType, target: Target)
        ensures names { self.new.names ≡ with_global self.old.names place kind target }
        ensures bases { self.new.bases ≡ self.old.bases }
        ensures derived { self.new.derived ≡ self.old.derived }
    {
        tell_shared(&mut self.names.globals, place, kind, target);
    }

    /// From now on the constant at the place among what the class declares has this type and means this. No such place: nothing changes.
    pub fn tell_member(&mut self, class: u32, place: u32, kind: StType, target: Target)
        ensures names { self.new.names ≡ with_member self.old.names class place kind target }
        ensures bases { self.new.bases ≡ self.old.bases }
        ensures derived { self.new.derived ≡ self.old.derived }
    {
        tell_in_class(&mut self.names.classes, class, place, kind, target);
    }

    /// The first entry of TYPE, class or interface of the name.
    pub fn type_named(&self, name: &Text) -> Option<&DeclaredType>
        ensures { MatchOption result (scope.type_named name.now self.now.names.types ≡ None) (λ t. scope.type_named name.now self.now.names.types ≡ Some t.now) }
    {
        type_at(&self.types, self.names.types.as_slice(), name)
    }

    /// The first global or function of the name.
    pub fn global_named(&self, name: &Text) -> Option<&DeclaredGlobal>
        ensures { MatchOption result (first_named scope.global_name name.now self.now.names.globals ≡ None) (λ g. first_named scope.global_name name.now self.now.names.globals ≡ Some g.now) }
    {
        global_at(&self.globals, self.names.globals.as_slice(), name)
    }

    /// Whether there is a global variable of the name.
    pub fn has_global_variable(&self, name: &Text) -> bool
        ensures { result ≡ list_any (scope.is_global_variable name.now) self.now.names.globals }
    {
        has_variable(&self.variables, name)
    }

    /// The number of a value in the enumeration that is this entry of TYPE.
    pub fn value_of(&self, entry: u32, name: &Text) -> Option<u32>
        ensures { (s : AScope) → Holds self.now s → result ≡ scope.value_of s entry name.now }
    {
        value_at(&self.values, entry, name)
    }

    /// A field of the structure that is this entry of TYPE, with its number.
    pub fn field_named(&self, entry: u32, name: &Text) -> Option<(u32, &DeclaredField)>
        ensures { (s : AScope) → Holds self.now s → MatchOption result (scope.field_named s entry name.now ≡ None) (λ x. scope.field_named s entry name.now ≡ Some (x.0, x.1.now)) }
    {
        field_at(&self.fields, self.names.parts.as_slice(), entry, name)
    }

    /// The nearest variable of the name that an instance of the class has, with the class that declares it.
    pub fn instance_variable(&self, class: u32, name: &Text) -> Option<(u32, &DeclaredVariable)>
        ensures { (s : AScope) → Holds self.now s → MatchOption result (scope.instance_variable s class name.now ≡ None) (λ x. scope.instance_variable s class name.now ≡ Some (x.0, x.1.now)) }
    {
        nearest_variable(
            &self.bases,
            &self.of_instance,
            self.names.classes.as_slice(),
            class,
            name,
        )
    }

    /// The first variable of the name that a class declares itself, externals among them.
    pub fn own_variable(&self, class: u32, name: &Text) -> Option<&DeclaredVariable>
        ensures { (s : AScope) → Holds self.now s → MatchOption result (scope.variable_named name.now (scope.variables_of s class) ≡ None) (λ v. scope.variable_named name.now (scope.variables_of s class) ≡ Some v.now) }
    {
        own_variable(&self.all, self.names.classes.as_slice(), class, name)
    }

    /// The nearest variable of the name in the chain of a class, without externals, with the class that declares it.
    fn inherited(&self, class: u32, name: &Text) -> Option<(u32, &DeclaredVariable)>
        ensures { (s : AScope) → Holds self.now s → MatchOption result (nearest (scope.base_entry s name.now) (chain s.classes class) ≡ None)
            (λ x. nearest (scope.base_entry s name.now) (chain s.classes class) ≡ Some (Some x.0, x.1.now)) }
    {
        nearest_variable(
            &self.bases,
            &self.inherited,
            self.names.classes.as_slice(),
            class,
            name,
        )
    }

    /// What a bare name means among the variables of a class and its bases, with the class that declares it: what the class declares
    /// itself, externals among them, then what its bases leave to it.
    pub fn class_entry(&self, class: u32, name: &Text) -> Option<(u32, &DeclaredVariable)>
        ensures { (s : AScope) → Holds self.now s → MatchOption result (scope.class_entry s name.now (Some class) ≡ None) (λ x. scope.class_entry s name.now (Some class) ≡ Some (Some x.0, x.1.now)) }
    {
        match self.own_variable(class, name) {
            Some(v) => Some((class, v)),
            None => self.inherited(class, name),
        }
    }

    /// The declaration of a method.
    pub fn method_routine(&self, id: MethodId) -> Option<&DeclaredRoutine>
        ensures { MatchOption result (routines.method_at self.now.names.classes id ≡ None) (λ r. routines.method_at self.now.names.classes id ≡ Some r.now) }
    {
        method_at(self.names.classes.as_slice(), id)
    }

    /// The declaration of a method of an interface.
    pub fn prototype_routine(&self, id: PrototypeId) -> Option<&DeclaredRoutine>
        ensures { MatchOption result (routines.prototype_at self.now.names.interfaces id ≡ None) (λ r. routines.prototype_at self.now.names.interfaces id ≡ Some r.now) }
    {
        prototype_at(self.names.interfaces.as_slice(), id)
    }

    /// The number of the base of a class, where it has one that is found.
    pub fn base_of(&self, class: u32) -> Option<u32>
        ensures { (s : AScope) → Holds self.now s → result ≡ base_in_unit s.classes class }
    {
        base_of(&self.bases, class)
    }

    /// The chain of a class: the class, its base and so on; it stops before a class that it has already.
    pub fn chain(&self, alloc: Global, class: u32) -> Result<Vec<u32>, NoMemory>
        ensures { (s : AScope) → Holds self.now s → IfOk result (λ classes. classes.items ≡ chain s.classes class) }
    {
        chain_of(alloc, &self.bases, class)
    }

    /// What a class declares itself.
    pub fn variables_of(&self, class: u32) -> &[DeclaredVariable]
        ensures { (s : AScope) → Holds self.now s → result.now ≡ scope.variables_of s class }
    {
        variables_at_class(self.names.classes.as_slice(), class)
    }

    /// Whether the class has EXTENDS; nothing where there is no such class.
    pub fn is_derived(&self, class: u32) -> Option<bool>
        ensures { (s : AScope) → Holds self.now s → result ≡ option_map (λ class. is_some class.base) (slice_get s.classes class) }
    {
        self.derived.get(class as usize).copied()
    }

    /// Whether it is a function block.
    pub fn is_block(&self, class: u32) -> bool
        ensures { result ≡ routines.is_block self.now.names.classes class }
    {
        is_block(self.names.classes.as_slice(), class)
    }

    /// The one enumeration that has a value of the name, and the number of the value.
    pub fn enumerator(&self, name: &Text) -> Option<(u32, u32)>
        ensures { (s : AScope) → Holds self.now s → MatchOption result (scope.enumerator_meaning s name.now ≡ None) (λ x. scope.enumerator_meaning s name.now ≡ Some (scope.an_enumerator x.0 x.1)) }
    {
        let only = lone(number_of(&self.first, name), number_of(&self.last, name));
        match only {
            Some(n) => match self.value_of(n, name) {
                Some(k) => Some((n, k)),
                None => None,
            },
            None => None,
        }
    }
}
