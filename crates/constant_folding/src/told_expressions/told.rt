//! Names of an expression that are told: constants with their values, and enumerators.

ghost use Rattle.std.specs.Prelude.{◌≡◌, ◌&&◌};
ghost use Rattle.st_tree.specs.Expression.{expression_of, argument_of, arguments_of, place_of, tails_of};
ghost use Rattle.st_rules.specs.Expressions as expressions;
ghost use Rattle.st_rules.specs.Scope as scope;
ghost use Rattle.name_resolution.specs.Meant.{qualifier};
ghost use Rattle.st_unit_rules.specs.declared_names.Constants as constants;
ghost use Rattle.constant_folding.specs.told_expressions.Private.Parts as own;

use check_places::whole_target;
use name_resolution::{Qualifier, Scope};
use plc_text::Text;
use st_tree::{Argument, Expr, Place, Tail};
use st_unit_rules::declared_names::is_told;

fn is_place_told(s: &Scope<'_>, place: &Place<u32>) -> bool
    ensures { result ≡ own.place_is_told s.now (place_of place.now) }
{
    is_told(whole_target(s, &place.root, place.selectors.as_slice()))
}

/// Whether a value of this name is found in the enumeration that stands before it.
#[tactic(auto, unfolding(st_rules::specs::Expressions::note_of_value))]
fn is_value_told(s: &Scope<'_>, before: Qualifier, name: &Text) -> bool
    ensures { result ≡ constants.is_told (expressions.note_of_value s.now (qualifier before) name.now) }
{
    match before {
        Qualifier::Values(n) => match s.value_of(n, name) {
            Some(_) => true,
            None => false,
        },
        Qualifier::Untold => false,
        Qualifier::Nothing => false,
    }
}

fn is_enumerator_told(s: &Scope<'_>, type_name: &Text, name: &Text) -> bool
    ensures { result ≡ constants.is_told (expressions.note_of_value s.now (scope.type_qualifier s.now type_name.now) name.now) }
{
    is_value_told(s, s.type_qualifier(type_name), name)
}

fn both(a: bool, b: bool) -> bool
    ensures { result ≡ (a && b) }
{
    a && b
}

/// Whether each name in an expression means a constant whose value is told, or an enumerator; also where AND_THEN or OR_ELSE skips it.
#[cycle(told)]
pub fn names_are_told(s: &Scope<'_>, e: &Expr<u32>) -> bool
    ensures { result ≡ constants.names_are_told s.now (expression_of e.now) }
{
    match e {
        Expr::Place(_, place) => is_place_told(s, place),
        Expr::Enumerator(_, type_name, _, name) => is_enumerator_told(s, type_name, name),
        Expr::Call(_, _, arguments) => arguments_are_told(s, arguments.as_slice()),
        Expr::Paren(_, inner) => names_are_told(s, inner.get()),
        Expr::Not(_, inner) => names_are_told(s, inner.get()),
        Expr::Negate(_, inner) => names_are_told(s, inner.get()),
        Expr::Chain(_, first, tails) => {
            let front = names_are_told(s, first.get());
            let rest = operands_are_told(s, tails.as_slice());
            both(front, rest)
        }
        Expr::Ref(_, _) => true,
        Expr::Now(_) => true,
        Expr::Int(_, _) => true,
        Expr::Typed(_, _, _) => true,
        Expr::Time(_, _) => true,
        Expr::True(_) => true,
        Expr::False(_) => true,
        Expr::Null(_) => true,
    }
}

#[cycle(told)]
fn operands_are_told(s: &Scope<'_>, tails: &[Tail<u32>]) -> bool
    ensures { result ≡ constants.operands_are_told s.now (tails_of tails.now) }
{
    for tail in tails {
        if !names_are_told(s, &tail.operand) {
            return false;
        }
    }
    true
}

#[cycle(told)]
fn is_argument_told(s: &Scope<'_>, argument: &Argument<u32>) -> bool
    ensures { result ≡ own.argument_is_told s.now (argument_of argument.now) }
{
    match argument {
        Argument::Positional(value) => names_are_told(s, value),
        Argument::Input(_, _, value) => names_are_told(s, value),
        Argument::Output(_, _, _, place) => is_place_told(s, place),
    }
}

#[cycle(told)]
fn arguments_are_told(s: &Scope<'_>, arguments: &[Argument<u32>]) -> bool
    ensures { result ≡ constants.arguments_are_told s.now (arguments_of arguments.now) }
{
    for argument in arguments {
        if !is_argument_told(s, argument) {
            return false;
        }
    }
    true
}
