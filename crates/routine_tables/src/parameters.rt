//! Inputs, outputs and in-outs, with where an argument goes.

ghost use Rattle.std.specs.Prelude.{◌≡◌, ◌++◌, ◌∷◌, suc, List, IfOk};
ghost use Rattle.st_values.specs.Program.{Variable as AVariable};
ghost use Rattle.st_values.specs.View as view;
ghost use Rattle.program_tables.specs.st_initial.Variables.{variables_of};
ghost use Rattle.routine_tables.specs.Parameters.{parameters_of};

use plc_text::{Items, NoMemory};
use program_tables::Variable;
use st_tree::SectionSort;
use std::alloc::Global;

/// Where an argument goes.
#[derive(Clone, Copy)]
pub enum Recipient {
    /// A local of the routine.
    Local(u32),
    /// A variable of the instance, those of its bases first.
    Variable(u32),
}

/// An input, output or in-out of what may be called.
#[derive(Clone, Copy)]
pub struct Parameter {
    pub sort: SectionSort,
    pub to: Recipient,
}

fn following(n: u32) -> Result<u32, NoMemory>
    ensures { IfOk result (λ m. m ≡ suc n) }
{
    match n.checked_add(1) {
        Some(m) => Ok(m),
        None => Err(NoMemory),
    }
}

pub fn is_parameter(sort: SectionSort) -> bool
    ensures { result ≡ view.is_parameter sort }
{
    matches!(
        sort,
        SectionSort::Input | SectionSort::Output | SectionSort::InOut
    )
}

/// Adds what a variable is as a parameter of a function or method; the number of the local behind it.
#[tactic(auto, using(crate::proofs::ParameterLaws::is_local, crate::proofs::ParameterLaws::no_local))]
fn push_local(made: &mut Items<Parameter>, next: u32, sort: SectionSort) -> Result<u32, NoMemory>
    ensures { IfOk result (λ after. (v : AVariable) (rest : List AVariable) → v.sort ≡ sort
        → parameters_of made.new ++ view.local_parameters after (view.those view.is_parameter rest) ≡ parameters_of made.old ++ view.local_parameters next (view.those view.is_parameter (v ∷ rest))) }
{
    if !is_parameter(sort) {
        return Ok(next);
    }
    let to = Recipient::Local(next);
    made.push(Parameter { sort, to })?;
    let after = following(next)?;
    Ok(after)
}

/// The parameters of a function or method: locals from this number on.
pub fn local_parameters(
    alloc: Global,
    first: u32,
    variables: &[Variable<'_>],
) -> Result<Items<Parameter>, NoMemory>
    ensures { IfOk result (λ made. parameters_of made ≡ view.local_parameters first (view.those view.is_parameter (variables_of variables.now))) }
{
    let mut made = Items::new(alloc);
    let mut next = first;
    for variable in variables {
        next = push_local(&mut made, next, variable.sort)?;
    }
    Ok(made)
}

/// The numbers of the next variable of an instance and of the next local of a body.
#[derive(Clone, Copy)]
struct Next {
    variable: u32,
    local: u32,
}

fn next_variable(next: Next) -> Result<Next, NoMemory>
    ensures variable { IfOk result (λ after. after.variable ≡ suc next.variable) }
    ensures local { IfOk result (λ after. after.local ≡ next.local) }
{
    let variable = following(next.variable)?;
    Ok(Next {
        variable,
        local: next.local,
    })
}

fn next_local(next: Next) -> Result<Next, NoMemory>
    ensures variable { IfOk result (λ after. after.variable ≡ next.variable) }
    ensures local { IfOk result (λ after. after.local ≡ suc next.local) }
{
    let local = following(next.local)?;
    Ok(Next {
        variable: next.variable,
        local,
    })
}

/// Adds what a variable is as a parameter of a body.
#[tactic(auto, using(crate::proofs::ParameterLaws::body_input, crate::proofs::ParameterLaws::body_output, crate::proofs::ParameterLaws::body_in_out, crate::proofs::ParameterLaws::body_temp, crate::proofs::ParameterLaws::body_var, crate::proofs::ParameterLaws::body_external, crate::proofs::ParameterLaws::body_global))]
fn push_for_body(
    made: &mut Items<Parameter>,
    next: Next,
    sort: SectionSort,
) -> Result<Next, NoMemory>
    ensures { IfOk result (λ after. (v : AVariable) (rest : List AVariable) → v.sort ≡ sort
        → parameters_of made.new ++ view.body_parameters after.variable after.local rest ≡ parameters_of made.old ++ view.body_parameters next.variable next.local (v ∷ rest)) }
{
    match sort {
        SectionSort::Input => {
            let to = Recipient::Variable(next.variable);
            made.push(Parameter { sort, to })?;
            let after = next_variable(next)?;
            Ok(after)
        }
        SectionSort::Output => {
            let to = Recipient::Variable(next.variable);
            made.push(Parameter { sort, to })?;
            let after = next_variable(next)?;
            Ok(after)
        }
        SectionSort::InOut => {
            let to = Recipient::Local(next.local);
            made.push(Parameter { sort, to })?;
            let after = next_local(next)?;
            Ok(after)
        }
        SectionSort::Temp => {
            let after = next_local(next)?;
            Ok(after)
        }
        SectionSort::Var => {
            let after = next_variable(next)?;
            Ok(after)
        }
        SectionSort::External => {
            let after = next_variable(next)?;
            Ok(after)
        }
        SectionSort::Global => {
            let after = next_variable(next)?;
            Ok(after)
        }
    }
}

/// The parameters of a body, by the variables of its class, those of its bases first.
pub fn body_parameters(
    alloc: Global,
    variables: &[Variable<'_>],
) -> Result<Items<Parameter>, NoMemory>
    ensures { IfOk result (λ made. parameters_of made ≡ view.body_parameters 0 0 (variables_of variables.now)) }
{
    let mut made = Items::new(alloc);
    let mut next = Next {
        variable: 0,
        local: 0,
    };
    for variable in variables {
        next = push_for_body(&mut made, next, variable.sort)?;
    }
    Ok(made)
}
