//! The limit of operators in places and arguments, whose expressions stand alone.

ghost use Rattle.std.specs.Prelude.{◌≡◌};
ghost use Rattle.st_tree.specs.Expression.{expressions_of, selector_of, selectors_of, argument_of, arguments_of};
ghost use Rattle.st_rules.specs.Faults.{least};
ghost use Rattle.st_rules.specs.Statements as statements;
ghost use Rattle.st_check_body.specs.st_body_parts.Private.Limits as own;

use check_nodes::operators_fault;
use plc_text::Code;
use st_rules::earlier;
use st_tree::{Argument, Expr, Selector};

fn indices_limit(indices: &[Expr<u32>]) -> Option<(Code, u32)>
    ensures { result ≡ least (statements.index_limits (expressions_of indices.now)) }
{
    let mut found = None;
    for index in indices {
        found = earlier(found, operators_fault(index));
    }
    found
}

fn selector_limit(selector: &Selector<u32>) -> Option<(Code, u32)>
    ensures { result ≡ least (own.one_selector_limit (selector_of selector.now)) }
{
    match selector {
        Selector::Index(_, indices) => indices_limit(indices.as_slice()),
        Selector::Field(_, _) => None,
        Selector::Target(_) => None,
    }
}

/// An index with more than 256 operators.
pub fn selectors_limit(selectors: &[Selector<u32>]) -> Option<(Code, u32)>
    ensures { result ≡ least (statements.selector_limits (selectors_of selectors.now)) }
{
    let mut found = None;
    for selector in selectors {
        found = earlier(found, selector_limit(selector));
    }
    found
}

fn argument_limit(argument: &Argument<u32>) -> Option<(Code, u32)>
    ensures { result ≡ least (own.one_argument_limit (argument_of argument.now)) }
{
    match argument {
        Argument::Positional(value) => operators_fault(value),
        Argument::Input(_, _, value) => operators_fault(value),
        Argument::Output(_, _, _, place) => selectors_limit(place.selectors.as_slice()),
    }
}

/// An argument with more than 256 operators.
pub fn arguments_limit(arguments: &[Argument<u32>]) -> Option<(Code, u32)>
    ensures { result ≡ least (statements.argument_limits (arguments_of arguments.now)) }
{
    let mut found = None;
    for argument in arguments {
        found = earlier(found, argument_limit(argument));
    }
    found
}
