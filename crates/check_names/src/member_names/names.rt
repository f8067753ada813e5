//! The names that classes declare.

ghost use Rattle.std.specs.Prelude.{◌≡◌, ◌∷◌, [], ◌++◌, ℕ, List, IfOk, OnOk};
ghost use Rattle.st_tree.specs.declared.declaration.ClassDecl.{ClassDecl as AClass};
ghost use Rattle.st_rules.specs.Classes.{classes_in, method_names};
ghost use Rattle.st_unit_rules.specs.NameRules.{is_named, texts, variable_texts};
ghost use Rattle.check_names.specs.name_spaces.Held.{Holds};
ghost use Rattle.check_names.specs.name_spaces.NamesIn.{names_of};
ghost use Rattle.check_names.specs.member_names.Known.{AreHeld, Knows};
ghost use Rattle.check_names.specs.member_names.Private.Above.{held_at};

use crate::member_names::own::{own_methods, own_variables};
use crate::name_rules::hold_names;
use crate::name_spaces::HeldNames;
use plc_text::{NoMemory, Text};
use st_tree::{ClassDecl, Decl, Name};
use std::alloc::Global;

/// The names that each class of a unit declares itself, found by hash.
#[derive(Drop)]
pub struct MemberNames {
    /// Of its variables, without externals.
    variables: Vec<HeldNames>,
    methods: Vec<HeldNames>,
}

fn held(alloc: Global, names: &[&Name]) -> Result<HeldNames, NoMemory>
    ensures { IfOk result (λ held. Holds held (texts (names_of names.now))) }
{
    let mut held = HeldNames::new(alloc);
    hold_names(alloc, &mut held, names)?;
    Ok(held)
}

fn held_variables(alloc: Global, class: &ClassDecl<u32>) -> Result<HeldNames, NoMemory>
    ensures { IfOk result (λ held. Holds held (variable_texts class.now)) }
{
    let names = own_variables(alloc, class.members.as_slice())?;
    let held = held(alloc, &names)?;
    Ok(held)
}

fn held_methods(alloc: Global, class: &ClassDecl<u32>) -> Result<HeldNames, NoMemory>
    ensures { IfOk result (λ held. Holds held (method_names class.now)) }
{
    let names = own_methods(alloc, class.members.as_slice())?;
    let held = held(alloc, &names)?;
    Ok(held)
}

fn add_variables(alloc: Global, list: &mut Vec<HeldNames>, decl: &Decl<u32>) -> Result<(), NoMemory>
    ensures { OnOk result ((cs : List (AClass ℕ)) → AreHeld variable_texts list.old.items cs → AreHeld variable_texts list.new.items (cs ++ classes_in (decl.now ∷ []))) }
{
    if let Decl::Class(class) = decl {
        let held = held_variables(alloc, class)?;
        list.push(held)?;
    }
    Ok(())
}

fn add_methods(alloc: Global, list: &mut Vec<HeldNames>, decl: &Decl<u32>) -> Result<(), NoMemory>
    ensures { OnOk result ((cs : List (AClass ℕ)) → AreHeld method_names list.old.items cs → AreHeld method_names list.new.items (cs ++ classes_in (decl.now ∷ []))) }
{
    if let Decl::Class(class) = decl {
        let held = held_methods(alloc, class)?;
        list.push(held)?;
    }
    Ok(())
}

fn variables_of(alloc: Global, decls: &[Decl<u32>]) -> Result<Vec<HeldNames>, NoMemory>
    ensures { IfOk result (λ list. AreHeld variable_texts list.items (classes_in decls.now)) }
{
    let mut list = Vec::new(alloc);
    for decl in decls {
        add_variables(alloc, &mut list, decl)?;
    }
    Ok(list)
}

fn methods_of(alloc: Global, decls: &[Decl<u32>]) -> Result<Vec<HeldNames>, NoMemory>
    ensures { IfOk result (λ list. AreHeld method_names list.items (classes_in decls.now)) }
{
    let mut list = Vec::new(alloc);
    for decl in decls {
        add_methods(alloc, &mut list, decl)?;
    }
    Ok(list)
}

/// Whether the class of this number has the name.
pub fn has_at(tables: &[HeldNames], class: u32, name: &Text) -> bool
    ensures { result ≡ is_named name.now (held_at tables.now class) }
{
    match tables.get(class as usize) {
        Some(held) => held.has(name),
        None => false,
    }
}

impl MemberNames {
    /// The names of the classes of a unit.
    pub fn build(alloc: Global, decls: &[Decl<u32>]) -> Result<MemberNames, NoMemory>
        ensures { IfOk result (λ names. Knows names (classes_in decls.now)) }
    {
        let variables = variables_of(alloc, decls)?;
        let methods = methods_of(alloc, decls)?;
        Ok(MemberNames { variables, methods })
    }

    pub fn variables(&self) -> &[HeldNames]
        ensures { result.now ≡ self.now.variables.items }
    {
        &self.variables
    }

    pub fn methods(&self) -> &[HeldNames]
        ensures { result.now ≡ self.now.methods.items }
    {
        &self.methods
    }
}
