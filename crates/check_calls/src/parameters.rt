//! The parameters of what is called.

ghost use Rattle.std.specs.Prelude.{◌≡◌, ◌++◌, ◌∷◌, [], filter, IfOk, OnOk};
ghost use Rattle.st_rules.specs.Signatures.{is_parameter_sort};
ghost use Rattle.st_rules.specs.Calls as calls;
ghost use Rattle.check_calls.specs.Callee.{called};
ghost use Rattle.check_calls.specs.Parameters.{parameters_of, operand_kind};

use crate::callee::Callee;
use name_resolution::Scope;
use plc_text::{NoMemory, Text};
use st_rules::{Access, DeclaredVariable, is_parameter_sort};
use st_tree::{SectionSort, Target};
use st_types::{Elem, StType};
use std::alloc::Global;

fn is_parameter(v: &DeclaredVariable) -> bool
    ensures { result ≡ calls.is_parameter v.now }
{
    is_parameter_sort(v.sort) && !v.constant
}

/// Adds the inputs, outputs and in-outs that a class declares itself.
fn add_own<'a>(
    list: &mut Vec<&'a DeclaredVariable>,
    variables: &'a [DeclaredVariable],
) -> Result<(), NoMemory>
    ensures { OnOk result (parameters_of list.new.items ≡ parameters_of list.old.items ++ filter calls.is_parameter variables.now) }
{
    for v in variables {
        if is_parameter(v) {
            list.push(v)?;
        }
    }
    Ok(())
}

/// Adds all of a routine.
fn add_all<'a>(
    list: &mut Vec<&'a DeclaredVariable>,
    variables: &'a [DeclaredVariable],
) -> Result<(), NoMemory>
    ensures { OnOk result (parameters_of list.new.items ≡ parameters_of list.old.items ++ variables.now) }
{
    for v in variables {
        list.push(v)?;
    }
    Ok(())
}

/// Those of a block's body: of its bases first.
#[tactic(auto, unfolding(st_rules::specs::Calls::block_parameters))]
pub fn block_parameters<'a>(
    alloc: Global,
    s: &Scope<'a>,
    class: u32,
) -> Result<Vec<&'a DeclaredVariable>, NoMemory>
    ensures { IfOk result (λ list. parameters_of list.items ≡ calls.block_parameters s.now class) }
{
    let chain = s.chain(alloc, class)?;
    let mut list = Vec::new(alloc);
    let mut i = chain.len();
    'classes: while i > 0 {
        i -= 1;
        add_own(&mut list, s.variables_of(chain[i]))?;
    }
    Ok(list)
}

/// Those of a function or a method.
pub fn routine_parameters<'a>(
    alloc: Global,
    variables: &'a [DeclaredVariable],
) -> Result<Vec<&'a DeclaredVariable>, NoMemory>
    ensures { IfOk result (λ list. parameters_of list.items ≡ variables.now) }
{
    let mut list = Vec::new(alloc);
    add_all(&mut list, variables)?;
    Ok(list)
}

fn operand_kind(c: Callee<'_>) -> Elem
    ensures { result ≡ operand_kind (called c.entry) }
{
    match c {
        Callee::Conversion(from, _) => from,
        _ => Elem::Bool,
    }
}

/// The operand of a conversion, as an input without a name.
pub fn operand_of(alloc: Global, c: Callee<'_>) -> DeclaredVariable
    ensures { result ≡ calls.operand_parameter (operand_kind (called c.entry)) }
{
    DeclaredVariable {
        name: Text::new(alloc),
        sort: SectionSort::Input,
        constant: false,
        access: Access::Public,
        located_input: false,
        kind: Some(StType::Elementary(operand_kind(c))),
        target: Target::Nothing,
    }
}

fn one_parameter<'a>(
    alloc: Global,
    operand: &'a DeclaredVariable,
) -> Result<Vec<&'a DeclaredVariable>, NoMemory>
    ensures { IfOk result (λ list. parameters_of list.items ≡ operand.now ∷ []) }
{
    let mut list = Vec::new(alloc);
    list.push(operand)?;
    Ok(list)
}

/// The parameters of what is called, in the order in which they count; of a conversion its operand.
pub fn callee_parameters<'a>(
    alloc: Global,
    s: &Scope<'a>,
    c: Callee<'a>,
    operand: &'a DeclaredVariable,
) -> Result<Vec<&'a DeclaredVariable>, NoMemory>
    requires { operand.now ≡ calls.operand_parameter (operand_kind (called c)) }
    ensures { IfOk result (λ list. parameters_of list.items ≡ calls.callee_parameters s.now (called c.entry)) }
{
    match c {
        Callee::Conversion(_, _) => one_parameter(alloc, operand),
        Callee::Routine(r) => routine_parameters(alloc, r.parameters.as_slice()),
        Callee::Body(class) => block_parameters(alloc, s, class),
        Callee::Nothing => Ok(Vec::new(alloc)),
        Callee::NotCallable => Ok(Vec::new(alloc)),
        Callee::BaseBody(_) => Ok(Vec::new(alloc)),
        Callee::NoBaseBody => Ok(Vec::new(alloc)),
    }
}
