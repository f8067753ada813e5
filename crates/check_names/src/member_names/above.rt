//! Members that have the name of a member of a base.

ghost use Rattle.std.specs.Prelude.{◌≡◌, ◌||◌, ℕ, List, drop, flat_map, IfOk};
ghost use Rattle.std.specs.List.{list_any};
ghost use Rattle.st_tree.specs.declared.declaration.ClassDecl.{ClassDecl as AClass};
ghost use Rattle.st_rules.specs.Classes as classes;
ghost use Rattle.st_rules.specs.Faults.{least};
ghost use Rattle.st_unit_rules.specs.NameRules as rules;
ghost use Rattle.st_unit_rules.specs.NameRules.{is_named};
ghost use Rattle.check_names.specs.name_spaces.NamesIn.{names_of};
ghost use Rattle.check_names.specs.member_names.Known.{Knows};
ghost use Rattle.check_names.specs.member_names.Private.Above.{held_at, names_above, is_taken, variable_above};

use crate::member_names::names::{MemberNames, has_at};
use crate::member_names::own::{own_methods, own_variables};
use crate::name_rules::space_fault;
use crate::name_spaces::{HeldNames, member_names};
use plc_text::{Code, NoMemory, Text};
use st_rules::{earlier, when};
use st_tree::{ClassDecl, Name};
use std::alloc::Global;

/// Whether one of the classes has the name.
fn any_has(tables: &[HeldNames], above: &[u32], name: &Text) -> bool
    ensures { result ≡ list_any (λ c. is_named name.now (held_at tables.now c)) above.now }
{
    above.iter().any(|class| has_at(tables, *class, name))
}

/// Whether the name is one of those that the classes have.
fn stands_above(tables: &[HeldNames], above: &[u32], name: &Text) -> bool
    ensures { result ≡ is_named name.now (names_above tables.now above.now) }
{
    any_has(tables, above, name)
}

/// Whether one of the classes has a variable or a method of the name.
fn is_taken(names: &MemberNames, above: &[u32], name: &Text) -> bool
    ensures { result ≡ is_taken (names_above names.now.variables.items above.now) (names_above names.now.methods.items above.now) name.now }
{
    stands_above(names.variables(), above, name) || stands_above(names.methods(), above, name)
}

/// E04 where a variable has the name of a variable or a method above.
fn variable_fault(names: &MemberNames, above: &[u32], name: &Name) -> Option<(Code, u32)>
    ensures { result ≡ least (variable_above (names_above names.now.variables.items above.now) (names_above names.now.methods.items above.now) name.now) }
{
    when(is_taken(names, above, &name.text), Code::E04, name.line)
}

/// E04 where a method has the name of a variable above.
fn method_fault(names: &MemberNames, above: &[u32], name: &Name) -> Option<(Code, u32)>
    ensures { result ≡ least (rules.method_named_as_variable (names_above names.now.variables.items above.now) name.now) }
{
    let taken = stands_above(names.variables(), above, &name.text);
    when(taken, Code::E04, name.line)
}

fn variables_fault(names: &MemberNames, above: &[u32], list: &[&Name]) -> Option<(Code, u32)>
    ensures { result ≡ least (flat_map (variable_above (names_above names.now.variables.items above.now) (names_above names.now.methods.items above.now)) (names_of list.now)) }
{
    let mut found = None;
    for name in list {
        found = earlier(found, variable_fault(names, above, *name));
    }
    found
}

fn methods_fault(names: &MemberNames, above: &[u32], list: &[&Name]) -> Option<(Code, u32)>
    ensures { result ≡ least (flat_map (rules.method_named_as_variable (names_above names.now.variables.items above.now)) (names_of list.now)) }
{
    let mut found = None;
    for name in list {
        found = earlier(found, method_fault(names, above, *name));
    }
    found
}

/// The bases in a chain, which stand behind the class itself.
fn bases(chain: &[u32]) -> &[u32]
    ensures { result.now ≡ drop 1 chain.now }
{
    match chain.split_first() {
        Some((_, behind)) => behind,
        None => chain,
    }
}

/// E04 at the least line of a member of a class that stands again in the class, has the name of a conversion, or one that its bases do
/// not leave to it: a variable that of a variable or a method, a method that of a variable. The chain is that of the class in its unit.
pub fn member_name_fault(
    alloc: Global,
    names: &MemberNames,
    chain: &[u32],
    class: &ClassDecl<u32>,
) -> Result<Option<(Code, u32)>, NoMemory>
    ensures { IfOk result (λ f. (all : List (AClass ℕ)) (c : ℕ) → Knows names.now all → chain.now ≡ classes.chain all c → f ≡ least (rules.member_name_faults all c class.now)) }
{
    let members = class.members.as_slice();
    let above = bases(chain);
    let all = member_names(alloc, members)?;
    let space = space_fault(alloc, &all)?;
    let variables = own_variables(alloc, members)?;
    let of_variables = variables_fault(names, above, &variables);
    let methods = own_methods(alloc, members)?;
    let of_methods = methods_fault(names, above, &methods);
    Ok(earlier(earlier(space, of_variables), of_methods))
}
