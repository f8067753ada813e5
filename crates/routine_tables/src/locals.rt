//! The locals of routines.

ghost use Rattle.std.specs.Prelude.{◌≡◌, ◌++◌, OnOk};
ghost use Rattle.st_values.specs.View as view;
ghost use Rattle.program_tables.specs.st_initial.Variables.{variables_of};

use crate::parameters::is_parameter;
use plc_text::{NoMemory, Text};
use program_tables::{Variable, kind_of};
use st_tree::{Note, SectionSort, TypeSpec};

/// Adds the result of a function or method, where it has one.
pub fn push_result<'p>(
    out: &mut Vec<Variable<'p>>,
    name: &'p Text,
    kind: &'p Option<TypeSpec<Note>>,
) -> Result<(), NoMemory>
    ensures { OnOk result (variables_of out.new.items ≡ variables_of out.old.items ++ view.result_of name.now kind.now) }
{
    if let Some(kind) = kind {
        out.push(Variable {
            name,
            sort: SectionSort::Var,
            kind: kind_of(kind),
            initial: None,
            no_copy: false,
            init_on_change: false,
            renamed_from: None,
            address: None,
        })?;
    }
    Ok(())
}

/// Adds the inputs, outputs and in-outs among variables.
pub fn push_parameters<'p>(
    out: &mut Vec<Variable<'p>>,
    variables: &[Variable<'p>],
) -> Result<(), NoMemory>
    ensures { OnOk result (variables_of out.new.items ≡ variables_of out.old.items ++ view.those view.is_parameter (variables_of variables.now)) }
{
    for variable in variables {
        if is_parameter(variable.sort) {
            out.push(*variable)?;
        }
    }
    Ok(())
}

/// Adds the other variables.
pub fn push_others<'p>(
    out: &mut Vec<Variable<'p>>,
    variables: &[Variable<'p>],
) -> Result<(), NoMemory>
    ensures { OnOk result (variables_of out.new.items ≡ variables_of out.old.items ++ view.those (view.negated view.is_parameter) (variables_of variables.now)) }
{
    for variable in variables {
        if !is_parameter(variable.sort) {
            out.push(*variable)?;
        }
    }
    Ok(())
}

fn is_of_body(sort: SectionSort) -> bool
    ensures { result ≡ view.is_of_body sort }
{
    matches!(sort, SectionSort::InOut | SectionSort::Temp)
}

/// Adds the locals of a body among the variables of its class.
pub fn push_of_body<'p>(
    out: &mut Vec<Variable<'p>>,
    variables: &[Variable<'p>],
) -> Result<(), NoMemory>
    ensures { OnOk result (variables_of out.new.items ≡ variables_of out.old.items ++ view.those view.is_of_body (variables_of variables.now)) }
{
    for variable in variables {
        if is_of_body(variable.sort) {
            out.push(*variable)?;
        }
    }
    Ok(())
}
