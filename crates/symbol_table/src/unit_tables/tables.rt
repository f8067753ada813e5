//! All tables of a unit that each of its texts needs.

ghost use Rattle.std.specs.Prelude.{◌≡◌, [], IfOk};
ghost use Rattle.st_rules.specs.Classes.{classes_in};
ghost use Rattle.st_rules.specs.Scope as rules;
ghost use Rattle.st_unit_rules.specs.declared_names.UnitNames.{unit_names};
ghost use Rattle.section_rules.specs.Variables.{classes_of};
ghost use Rattle.name_resolution.specs.Tables.{Knows};
ghost use Rattle.type_resolution.specs.told_locals.Around.{IsAround, all_told, scope_around};
ghost use Rattle.check_limits.specs.type_sizes.Sizes.{Measures};
ghost use Rattle.symbol_table.specs.unit_tables.Scopes.{scope_in};

use crate::unit_names::unit_names;
use crate::unit_tables::classes::list_classes;
use check_limits::TypeSizes;
use class_tables::ClassTables;
use declared_graph::DeclaredGraph;
use iface_tables::IfaceTables;
use name_resolution::{NameTables, Scope};
use plc_text::{NoMemory, Series};
use st_rules::DeclaredVariable;
use st_tree::{ClassDecl, Unit};
use std::alloc::Global;
use std::marker::Model;
use type_resolution::told_locals::{Around, Declaring, told_locals};

/// The tables of a unit, which contracts see as the unit.
pub struct UnitTables<'u> {
    unit: &'u Unit,
    classes: Vec<&'u ClassDecl<u32>>,
    interfaces: IfaceTables,
    names: NameTables,
    sizes: TypeSizes,
    graph: DeclaredGraph,
}

// By hand, so that a drop is one call: a derived one is written out wherever a `?` may need it.
impl Drop for UnitTables<'_> {
    fn drop(self) {
        let UnitTables {
            unit: _,
            classes: _,
            interfaces: _,
            names: _,
            sizes: _,
            graph: _,
        } = self;
    }
}

impl<'u> Model for UnitTables<'u> {
    ghost use Rattle.st_tree.specs.declared.unit.Unit.{Unit};

    ghost Value = { Unit };

    ghost use Rattle.st_tree.specs.contracts.unit.Unit as unit_type;

    ghost coded = { unit_type.the_row.coded };

    ghost use Rattle.symbol_table.specs.unit_tables.Private.Tables.{AreTables};

    ghost view = { λ t. t.unit.now };

    ghost invariant = { λ t. AreTables t.unit.now t.classes.items t.interfaces t.names t.sizes t.graph };
}

impl<'u> UnitTables<'u> {
    /// The tables of a unit, in time linear in it but for what `unit_names` says.
    pub fn build(alloc: Global, unit: &'u Unit) -> Result<UnitTables<'u>, NoMemory>
        ensures { IfOk result (λ t. t ≡ unit.now) }
    {
        let classes = list_classes(alloc, unit.decls.as_slice())?;
        let interfaces = IfaceTables::build(alloc, unit)?;
        let names = unit_names(alloc, unit, interfaces.classes(), &interfaces)?;
        let sizes = TypeSizes::build(alloc, unit, interfaces.classes(), &names)?;
        let graph = DeclaredGraph::build(alloc, unit)?;
        let names = NameTables::build(alloc, unit, interfaces.classes(), names)?;
        Ok(UnitTables {
            unit,
            classes,
            interfaces,
            names,
            sizes,
            graph,
        })
    }

    /// The unit itself.
    pub fn unit(&self) -> &'u Unit
        ensures { result.now ≡ self.now }
    {
        self.unit
    }

    /// The classes and function blocks, by their numbers.
    pub fn classes(&self) -> &[&'u ClassDecl<u32>]
        ensures { classes_of result.now ≡ classes_in self.now.decls }
    {
        self.classes.as_slice()
    }

    /// Which method a name means in a class, and what conforms to what.
    pub fn class_tables(&self) -> &ClassTables
        ensures { result.now ≡ self.now }
    {
        self.interfaces.classes()
    }

    /// The same of interfaces.
    pub fn interface_tables(&self) -> &IfaceTables
        ensures { result.now ≡ self.now }
    {
        &self.interfaces
    }

    /// What the unit says of its names.
    pub fn names(&self) -> &NameTables
        ensures names { result.now.names ≡ unit_names self.now.decls }
        ensures knows { Knows result.now (classes_in self.now.decls) }
    {
        &self.names
    }

    /// How many values types have, and how deep they are.
    pub fn sizes(&self) -> &TypeSizes
        ensures { (s : rules.Scope) → s.classes ≡ classes_in self.now.decls → s.names ≡ unit_names self.now.decls → Measures result.now s }
    {
        &self.sizes
    }

    /// What contains what, and which constants need which.
    pub fn graph(&self) -> &DeclaredGraph
        ensures { result.now ≡ self.now }
    {
        &self.graph
    }

    fn around(&self, class: Option<u32>, in_method: bool) -> Around<'_>
        ensures around { IsAround result }
        ensures scope { scope_around result ≡ scope_in self.now.decls class in_method [] }
    {
        Around {
            names: &self.names,
            classes: self.interfaces.classes(),
            interfaces: &self.interfaces,
            class,
            in_method,
        }
    }

    /// The locals of a routine or a program, of a class or of none, of a method or not, with all that can be told of them.
    pub fn locals(
        &self,
        alloc: Global,
        class: Option<u32>,
        in_method: bool,
        of: &Declaring<'_>,
    ) -> Result<Series<DeclaredVariable>, NoMemory>
        ensures { IfOk result (λ vs. vs ≡ all_told of.now (scope_in self.now.decls class in_method [])) }
    {
        let around = self.around(class, in_method);
        let locals = told_locals(alloc, &around, of)?;
        Ok(locals)
    }

    /// The scope of a text of the unit: of a class or of none, of a method or not, with these locals.
    pub fn scope<'a>(
        &'a self,
        alloc: Global,
        class: Option<u32>,
        in_method: bool,
        locals: &'a [DeclaredVariable],
    ) -> Result<Scope<'a>, NoMemory>
        ensures { IfOk result (λ s. s ≡ scope_in self.now.decls class in_method locals.now) }
    {
        let s = Scope::within(
            alloc,
            &self.names,
            self.interfaces.classes(),
            &self.interfaces,
            locals,
            class,
            in_method,
        )?;
        Ok(s)
    }
}
