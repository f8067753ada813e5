//! What is in scope where a text stands.

ghost use Rattle.std.specs.Prelude.{◌≡◌, true, IfOk, MatchOption, None, Some, option_map, option_and_then, slice_get};
ghost use Rattle.std.specs.Option.{is_some};
ghost use Rattle.st_rules.specs.Chains.{◌or_else◌};
ghost use Rattle.st_rules.specs.Classes.{base_of, chain, classes_in, lookup};
ghost use Rattle.st_rules.specs.Interfaces.{interfaces_in, interface_lookup, conforms, extends};
ghost use Rattle.name_resolution.specs.Locals.{ArePlaces};
ghost use Rattle.name_resolution.specs.Tables.{Knows};
ghost use Rattle.st_rules.specs.Scope as scope;
ghost use Rattle.name_resolution.specs.Meant.{meant, meaning, qualifier};
ghost use Rattle.name_resolution.specs.Private.Places.{IsTableOf};

use crate::places::{Places, Which, place_of, variable_there, variables};
use crate::tables::NameTables;
use iface_tables::{ClassTables, IfaceTables};
use plc_text::{NoMemory, Text};
use st_rules::{
    Access, DeclaredField, DeclaredGlobal, DeclaredRoutine, DeclaredType, DeclaredVariable,
    MethodId, PrototypeId, is_external,
};
use st_types::StType;
use std::alloc::Global;
use std::marker::Model;

/// What can be seen from where a text stands: in a class or in none, in a method or not, with the variables of its routine.
#[derive(Drop)]
pub struct Scope<'a> {
    names: &'a NameTables,
    classes: &'a ClassTables,
    interfaces: &'a IfaceTables,
    locals: &'a [DeclaredVariable],
    places: Places,
    class: Option<u32>,
    in_method: bool,
}

impl<'a> Model for Scope<'a> {
    ghost use Rattle.st_rules.specs.Scope.{Scope as Seen};
    ghost use Rattle.st_rules.specs.Classes.{classes_in};
    ghost use Rattle.st_rules.specs.Interfaces.{interfaces_in};
    ghost use Rattle.name_resolution.specs.Private.Scope.{Sees};
    ghost use Rattle.std.specs.Coded.{codes};
    ghost use Rattle.std.specs.Borrow.{u32};
    ghost use Rattle.st_types.specs.contracts.st_type.StType as kind;
    ghost use Rattle.st_tree.specs.contracts.expression.Expr as expression;
    ghost use Rattle.st_tree.specs.contracts.initial.Init as initial;
    ghost use Rattle.st_tree.specs.contracts.statement.Stmt as statement;

    ghost Value = { Seen };

    ghost coded = { Prim.hlevel (codes, kind.the_row.coded, (expression.the_row u32).coded, (initial.the_row u32).coded, (statement.the_row u32).coded) };

    ghost view = { λ s. record { classes = classes_in s.classes.now.decls; interfaces = interfaces_in s.classes.now.decls; names = s.names.now.names; class = s.class; in_method = s.in_method; locals = s.locals.now } };

    ghost invariant = { λ s. Sees s.names.now (record { classes = classes_in s.classes.now.decls; interfaces = interfaces_in s.classes.now.decls; names = s.names.now.names; class = s.class; in_method = s.in_method; locals = s.locals.now }) s.places (interfaces_in s.interfaces.now.decls) };
}

/// What a name means.
#[derive(Clone, Copy)]
pub enum Meant<'a> {
    /// A variable or a constant, with the class that declares it, where it is one of a class.
    Variable(Option<u32>, &'a DeclaredVariable),
    /// A method of the own class.
    Method(MethodId),
    /// With its number among the functions.
    Function(u32, &'a DeclaredRoutine),
    /// The number of the enumeration, and that of the value in it.
    Enumerator(u32, u32),
}

/// What a type's name qualifies before `#` or `.`.
#[derive(Clone, Copy, Debug, PartialEq, Eq)]
pub enum Qualifier {
    /// The values of an enumeration.
    Values(u32),
    /// What cannot be told.
    Untold,
    /// It is the name of no enumeration.
    Nothing,
}

fn global_meaning(global: &DeclaredGlobal) -> Meant<'_>
    ensures { meaning result ≡ scope.global_meaning global.now }
{
    match global {
        DeclaredGlobal::Variable(v) => Meant::Variable(None, v),
        DeclaredGlobal::Function(k, r) => Meant::Function(*k, r),
    }
}

fn qualifier_of(kind: &Option<StType>) -> Qualifier
    ensures { qualifier result ≡ scope.qualifier_kind kind.now }
{
    match kind {
        Some(StType::Enumeration(n)) => Qualifier::Values(*n),
        Some(_) => Qualifier::Nothing,
        None => Qualifier::Untold,
    }
}

/// Where the first local of each name stands, for scopes with locals of these names in these places.
pub fn local_places(alloc: Global, locals: &[DeclaredVariable]) -> Result<Places, NoMemory>
    ensures { IfOk result (λ table. ArePlaces table locals.now) }
{
    let table = variables(alloc, locals, Which::All)?;
    Ok(table)
}

/// The first local of the name.
fn local_at<'a>(
    table: &Places,
    locals: &'a [DeclaredVariable],
    name: &Text,
) -> Option<&'a DeclaredVariable>
    requires { IsTableOf (λ v. v.name) (λ v. true) table.now locals.now }
    ensures { MatchOption result (scope.variable_named name.now locals.now ≡ None) (λ v. scope.variable_named name.now locals.now ≡ Some v.now) }
{
    variable_there(locals, place_of(table, name))
}

impl<'a> Scope<'a> {
    /// The scope of a text: of a class or of none, of a method or not, with the variables of its routine.
    pub fn within(
        alloc: Global,
        names: &'a NameTables,
        classes: &'a ClassTables,
        interfaces: &'a IfaceTables,
        locals: &'a [DeclaredVariable],
        class: Option<u32>,
        in_method: bool,
    ) -> Result<Scope<'a>, NoMemory>
        requires names { Knows names.now (classes_in classes.now.decls) }
        requires tables { interfaces.now ≡ classes.now }
        ensures { IfOk result (λ s. s ≡ record { classes = classes_in classes.now.decls; interfaces = interfaces_in classes.now.decls; names = names.now.names; class = class; in_method = in_method; locals = locals.now }) }
    {
        let places = local_places(alloc, locals)?;
        Ok(Scope::over(names, classes, interfaces, locals, places, class, in_method))
    }

    /// The same scope, where it is known where the names of the locals stand.
    pub fn over(
        names: &'a NameTables,
        classes: &'a ClassTables,
        interfaces: &'a IfaceTables,
        locals: &'a [DeclaredVariable],
        places: Places,
        class: Option<u32>,
        in_method: bool,
    ) -> Scope<'a>
        requires names { Knows names.now (classes_in classes.now.decls) }
        requires tables { interfaces.now ≡ classes.now }
        requires places { ArePlaces places locals.now }
        ensures { result ≡ record { classes = classes_in classes.now.decls; interfaces = interfaces_in classes.now.decls; names = names.now.names; class = class; in_method = in_method; locals = locals.now } }
    {
        Scope {
            names,
            classes,
            interfaces,
            locals,
            places,
            class,
            in_method,
        }
    }

    /// Where the names of its locals stand.
    pub fn into_places(self) -> Places
        ensures { ArePlaces result self.entry.locals }
    {
        self.places
    }

    /// The first local of the name.
    fn local(&self, name: &Text) -> Option<&'a DeclaredVariable>
        ensures { MatchOption result (scope.variable_named name.now self.now.locals ≡ None) (λ v. scope.variable_named name.now self.now.locals ≡ Some v.now) }
    {
        local_at(&self.places, self.locals, name)
    }

    /// What a bare name means among locals, and variables of the own class and its bases, with the class that declares it, where one does.
    fn entry(&self, name: &Text) -> Option<(Option<u32>, &'a DeclaredVariable)>
        ensures { MatchOption result (scope.entry self.now name.now ≡ None) (λ x. scope.entry self.now name.now ≡ Some (x.0, x.1.now)) }
    {
        match self.local(name) {
            Some(v) => Some((None, v)),
            None => match self.class {
                Some(c) => match self.names.class_entry(c, name) {
                    Some((d, v)) => Some((Some(d), v)),
                    None => None,
                },
                None => None,
            },
        }
    }

    /// The method of the name that the own class has.
    fn own_method(&self, name: &Text) -> Option<MethodId>
        ensures { result ≡ option_and_then (λ c. lookup self.now.classes c name.now) self.now.class }
    {
        match self.class {
            Some(c) => self.classes.method_of(c, name),
            None => None,
        }
    }

    /// The first global or function of the name.
    fn global(&self, name: &Text) -> Option<Meant<'a>>
        ensures { meant result ≡ scope.global_named name.now self.now.names.globals }
    {
        match self.names.global_named(name) {
            Some(g) => Some(global_meaning(g)),
            None => None,
        }
    }

    /// The first entry of TYPE, class or interface of the name.
    pub fn type_named(&self, name: &Text) -> Option<&'a DeclaredType>
        ensures { MatchOption result (scope.type_named name.now self.now.names.types ≡ None) (λ t. scope.type_named name.now self.now.names.types ≡ Some t.now) }
    {
        self.names.type_named(name)
    }

    /// What an entry means: of VAR_EXTERNAL the global of its name.
    fn meant_by(&self, class: Option<u32>, v: &'a DeclaredVariable) -> Option<Meant<'a>>
        ensures { meant result ≡ scope.meant_by self.now class v.now }
    {
        if is_external(v.sort) {
            self.global(&v.name)
        } else {
            Some(Meant::Variable(class, v))
        }
    }

    /// A global, a function, or the enumerator of the one enumeration that has it.
    fn shared(&self, name: &Text) -> Option<Meant<'a>>
        ensures { meant result ≡ (scope.global_named name.now self.now.names.globals or_else scope.enumerator_meaning self.now name.now) }
    {
        match self.global(name) {
            Some(m) => Some(m),
            None => match self.names.enumerator(name) {
                Some((n, k)) => Some(Meant::Enumerator(n, k)),
                None => None,
            },
        }
    }

    /// What a name means that is no local and no variable of the class.
    fn behind(&self, called: bool, name: &Text) -> Option<Meant<'a>>
        ensures { meant result ≡ scope.meaning_behind self.now called name.now None }
    {
        if called {
            match self.own_method(name) {
                Some(id) => Some(Meant::Method(id)),
                None => self.shared(name),
            }
        } else {
            self.shared(name)
        }
    }

    /// What a bare name means, where a call stands or not: locals go before variables of the own class and its bases, then come methods
    /// where a call stands, then globals and functions, then enumerators.
    #[tactic(auto, unfolding(st_rules::specs::Scope::sought))]
    pub fn sought(&self, called: bool, name: &Text) -> Option<Meant<'a>>
        ensures { meant result ≡ scope.sought self.now called name.now }
    {
        match self.entry(name) {
            Some((class, v)) => self.meant_by(class, v),
            None => self.behind(called, name),
        }
    }

    /// What a type's name qualifies before `#`.
    #[tactic(auto, unfolding(st_rules::specs::Scope::type_qualifier))]
    pub fn type_qualifier(&self, name: &Text) -> Qualifier
        ensures { qualifier result ≡ scope.type_qualifier self.now name.now }
    {
        match self.names.type_named(name) {
            Some(t) => qualifier_of(&t.kind),
            None => Qualifier::Nothing,
        }
    }

    /// What a type's name qualifies before `.`: a local, a variable of the class or a global goes before a type.
    #[tactic(auto, unfolding(st_rules::specs::Scope::dot_qualifier))]
    pub fn dot_qualifier(&self, name: &Text) -> Qualifier
        ensures { qualifier result ≡ scope.dot_qualifier self.now name.now }
    {
        if self.entry(name).is_some() || self.names.has_global_variable(name) {
            Qualifier::Nothing
        } else {
            self.type_qualifier(name)
        }
    }

    /// The number of a value in the enumeration that is this entry of TYPE.
    pub fn value_of(&self, entry: u32, name: &Text) -> Option<u32>
        ensures { result ≡ scope.value_of self.now entry name.now }
    {
        self.names.value_of(entry, name)
    }

    /// A field of the structure that is this entry of TYPE, with its number.
    pub fn field_named(&self, entry: u32, name: &Text) -> Option<(u32, &'a DeclaredField)>
        ensures { MatchOption result (scope.field_named self.now entry name.now ≡ None) (λ x. scope.field_named self.now entry name.now ≡ Some (x.0, x.1.now)) }
    {
        self.names.field_named(entry, name)
    }

    /// The nearest variable of the name that an instance of the class has, with the class that declares it.
    pub fn instance_variable(&self, class: u32, name: &Text) -> Option<(u32, &'a DeclaredVariable)>
        ensures { MatchOption result (scope.instance_variable self.now class name.now ≡ None) (λ x. scope.instance_variable self.now class name.now ≡ Some (x.0, x.1.now)) }
    {
        self.names.instance_variable(class, name)
    }

    /// The method that a name means in a class.
    pub fn method_of(&self, class: u32, name: &Text) -> Option<MethodId>
        ensures { result ≡ lookup self.now.classes class name.now }
    {
        self.classes.method_of(class, name)
    }

    /// The class or function block whose text it is.
    pub fn class(&self) -> Option<u32>
        ensures { result ≡ self.now.class }
    {
        self.class
    }

    /// Whether it is the text of a method.
    pub fn in_method(&self) -> bool
        ensures { result ≡ self.now.in_method }
    {
        self.in_method
    }

    /// The declaration of a method.
    pub fn method_routine(&self, id: MethodId) -> Option<&'a DeclaredRoutine>
        ensures { MatchOption result (scope.method_routine self.now id ≡ None) (λ r. scope.method_routine self.now id ≡ Some r.now) }
    {
        self.names.method_routine(id)
    }

    /// The declaration of a method of an interface.
    pub fn prototype_routine(&self, id: PrototypeId) -> Option<&'a DeclaredRoutine>
        ensures { MatchOption result (scope.prototype_routine self.now id ≡ None) (λ r. scope.prototype_routine self.now id ≡ Some r.now) }
    {
        self.names.prototype_routine(id)
    }

    /// The number of the base of a class, where it has one that is found.
    pub fn base_of(&self, class: u32) -> Option<u32>
        ensures { result ≡ base_of self.now.classes class }
    {
        self.names.base_of(class)
    }

    /// The chain of a class: the class, its base and so on; it stops before a class that it has already.
    pub fn chain(&self, alloc: Global, class: u32) -> Result<Vec<u32>, NoMemory>
        ensures { IfOk result (λ classes. classes.items ≡ chain self.now.classes class) }
    {
        self.names.chain(alloc, class)
    }

    /// What a class declares itself.
    pub fn variables_of(&self, class: u32) -> &'a [DeclaredVariable]
        ensures { result.now ≡ scope.variables_of self.now class }
    {
        self.names.variables_of(class)
    }

    /// Whether a class conforms to a class, an interface or a reference to a class.
    pub fn conforms(&self, class: u32, target: &StType) -> bool
        ensures { result ≡ conforms self.now.classes self.now.interfaces class target.now }
    {
        self.classes.conforms(class, target)
    }

    /// Whether an interface is another one or extends it, in any number of steps.
    pub fn extends(&self, interface: u32, other: u32) -> bool
        ensures { result ≡ extends self.now.interfaces interface other }
    {
        self.classes.extends(interface, other)
    }

    /// Whether the class has EXTENDS; nothing where there is no such class.
    pub fn is_derived(&self, class: u32) -> Option<bool>
        ensures { result ≡ option_map (λ class. is_some class.base) (slice_get self.now.classes class) }
    {
        self.names.is_derived(class)
    }

    /// Whether it is a function block.
    pub fn is_block(&self, class: u32) -> bool
        ensures { result ≡ scope.is_block_at self.now class }
    {
        self.names.is_block(class)
    }

    /// The method that a name means in an interface.
    pub fn prototype_of(&self, interface: u32, name: &Text) -> Option<PrototypeId>
        ensures { result ≡ interface_lookup self.now.interfaces interface name.now }
    {
        self.interfaces.prototype_of(interface, name)
    }

    /// Whether the text stands in the class or in one that is derived from it.
    #[tactic(auto, unfolding(st_rules::specs::Scope::is_text_under, st_rules::specs::Interfaces::conforms))]
    pub fn is_under(&self, class: u32) -> bool
        ensures { result ≡ scope.is_text_under self.now class }
    {
        match self.class {
            Some(c) => self.classes.conforms(c, &StType::Instance(class)),
            None => false,
        }
    }

    /// Whether a name of a class with this access may be used in the text.
    pub fn may_use(&self, access: Access, class: u32) -> bool
        ensures { result ≡ scope.may_use self.now access class }
    {
        match access {
            Access::Public => true,
            Access::Protected => self.is_under(class),
            Access::Private => match self.class {
                Some(c) => c == class,
                None => false,
            },
        }
    }
}
