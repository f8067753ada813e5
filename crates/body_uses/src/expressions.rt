//! What expressions use.

ghost use Rattle.std.specs.Prelude.{◌≡◌, ◌++◌, OnOk};
ghost use Rattle.st_tree.specs.Expression.{expression_of, expressions_of, selector_of, selectors_of, place_of, argument_of, arguments_of, tail_of, tails_of};
ghost use Rattle.st_meaning.specs.Place.{root_note};
ghost use Rattle.st_values.specs.View.{program_of};
ghost use Rattle.st_meaning.specs.st_frame.Use as words;
ghost use Rattle.routine_tables.specs.Parameters.{parameters_of};
ghost use Rattle.body_uses.specs.Uses.{uses_of, Knows};
ghost use Rattle.body_uses.specs.Private.Uses.{behind_argument, called_if, one_argument};

use crate::calls::{Callables, add_call, called, called_parameters, is_bound};
use crate::owners::add_changed;
use crate::places::{add_followed, add_root, root_note, selector_note};
use crate::uses::{Called, Use};
use call_steps::{behind_next, next_parameter, parameter_named};
use plc_text::NoMemory;
use routine_tables::Parameter;
use st_tree::{Argument, Expr, Note, Place, Selector, Tail};
use st_types::StType;

/// Adds what an expression uses.
#[cycle(uses)]
pub fn add_expression<'p>(
    e: &'p Expr<Note>,
    uses: &mut Vec<Use<'p>>,
    c: Callables<'_, '_>,
) -> Result<(), NoMemory>
    requires { Knows c }
    ensures { OnOk result (uses_of uses.new.items ≡ uses_of uses.old.items ++ words.expression_uses (program_of c.entry.tables.now) (expression_of e.now)) }
{
    match e {
        Expr::Place(_, place) => add_place(place, uses, c)?,
        Expr::Ref(_, place) => add_place(place, uses, c)?,
        Expr::Call(_, place, arguments) => {
            let called = called(&place.root, place.selectors.as_slice());
            add_head(uses, called, place)?;
            add_place(place, uses, c)?;
            let parameters = called_parameters(c, called);
            add_arguments(arguments.as_slice(), parameters, uses, c)?
        }
        Expr::Paren(_, inner) => add_expression(inner.get(), uses, c)?,
        Expr::Not(_, inner) => add_expression(inner.get(), uses, c)?,
        Expr::Negate(_, inner) => add_expression(inner.get(), uses, c)?,
        Expr::Chain(_, first, tails) => {
            add_expression(first.get(), uses, c)?;
            add_tails(tails.as_slice(), uses, c)?
        }
        Expr::Int(_, _) => {}
        Expr::Typed(_, _, _) => {}
        Expr::Time(_, _) => {}
        Expr::True(_) => {}
        Expr::False(_) => {}
        Expr::Null(_) => {}
        Expr::Enumerator(_, _, _, _) => {}
        Expr::Now(_) => {}
    }
    Ok(())
}

/// Adds what a place names and follows, and what its indices use.
#[cycle(uses)]
pub fn add_place<'p>(
    place: &'p Place<Note>,
    uses: &mut Vec<Use<'p>>,
    c: Callables<'_, '_>,
) -> Result<(), NoMemory>
    requires { Knows c }
    ensures { OnOk result (uses_of uses.new.items ≡ uses_of uses.old.items ++ words.place_uses (program_of c.entry.tables.now) (place_of place.now).0 (place_of place.now).1) }
{
    add_root(uses, &place.root)?;
    add_along(
        place.selectors.as_slice(),
        &root_note(&place.root).kind,
        uses,
        c,
    )?;
    Ok(())
}

/// Adds what selectors follow from a place of a type, and what their indices use.
#[cycle(uses)]
fn add_along<'p>(
    selectors: &'p [Selector<Note>],
    kind: &'p StType,
    uses: &mut Vec<Use<'p>>,
    c: Callables<'_, '_>,
) -> Result<(), NoMemory>
    requires { Knows c }
    ensures { OnOk result (uses_of uses.new.items ≡ uses_of uses.old.items ++ words.along_uses (program_of c.entry.tables.now) kind.now (selectors_of selectors.now)) }
{
    let mut at = kind;
    for selector in selectors {
        add_followed(uses, at, selector)?;
        add_selector(selector, uses, c)?;
        at = &selector_note(selector).kind;
    }
    Ok(())
}

#[cycle(uses)]
fn add_selector<'p>(
    selector: &'p Selector<Note>,
    uses: &mut Vec<Use<'p>>,
    c: Callables<'_, '_>,
) -> Result<(), NoMemory>
    requires { Knows c }
    ensures { OnOk result (uses_of uses.new.items ≡ uses_of uses.old.items ++ words.selector_uses (program_of c.entry.tables.now) (selector_of selector.now)) }
{
    match selector {
        Selector::Index(_, indices) => add_indices(indices.as_slice(), uses, c)?,
        Selector::Field(_, _) => {}
        Selector::Target(_) => {}
    }
    Ok(())
}

#[cycle(uses)]
fn add_indices<'p>(
    indices: &'p [Expr<Note>],
    uses: &mut Vec<Use<'p>>,
    c: Callables<'_, '_>,
) -> Result<(), NoMemory>
    requires { Knows c }
    ensures { OnOk result (uses_of uses.new.items ≡ uses_of uses.old.items ++ words.index_uses (program_of c.entry.tables.now) (expressions_of indices.now)) }
{
    for index in indices {
        add_expression(index, uses, c)?;
    }
    Ok(())
}

#[cycle(uses)]
fn add_tail<'p>(
    tail: &'p Tail<Note>,
    uses: &mut Vec<Use<'p>>,
    c: Callables<'_, '_>,
) -> Result<(), NoMemory>
    requires { Knows c }
    ensures { OnOk result (uses_of uses.new.items ≡ uses_of uses.old.items ++ words.expression_uses (program_of c.entry.tables.now) (tail_of tail.now).2) }
{
    add_expression(&tail.operand, uses, c)
}

#[cycle(uses)]
fn add_tails<'p>(
    tails: &'p [Tail<Note>],
    uses: &mut Vec<Use<'p>>,
    c: Callables<'_, '_>,
) -> Result<(), NoMemory>
    requires { Knows c }
    ensures { OnOk result (uses_of uses.new.items ≡ uses_of uses.old.items ++ words.tail_uses (program_of c.entry.tables.now) (tails_of tails.now)) }
{
    for tail in tails {
        add_tail(tail, uses, c)?;
    }
    Ok(())
}

/// Adds what a call enters, and that the owner of its place may be changed.
#[tactic(auto, using(st_tree::specs::Expression::expression_views))]
fn add_head<'p>(
    uses: &mut Vec<Use<'p>>,
    called: Option<Called<'p>>,
    place: &'p Place<Note>,
) -> Result<(), NoMemory>
    ensures { OnOk result (uses_of uses.new.items ≡ uses_of uses.old.items ++ (words.call_use (called_if called.entry) ++ words.owner_uses (place_of place.now).0 (place_of place.now).1)) }
{
    add_call(uses, called)?;
    add_changed(uses, &place.root, place.selectors.as_slice())?;
    Ok(())
}

/// Adds what a call enters, whose owner may change, what its place uses, and what its arguments use.
#[tactic(auto, using(st_tree::specs::Expression::expression_views))]
pub fn add_whole_call<'p>(
    uses: &mut Vec<Use<'p>>,
    c: Callables<'_, '_>,
    place: &'p Place<Note>,
    arguments: &'p [Argument<Note>],
) -> Result<(), NoMemory>
    requires { Knows c }
    ensures { OnOk result (uses_of uses.new.items ≡ uses_of uses.old.items ++ words.call_uses (program_of c.entry.tables.now) (place_of place.now).0 (place_of place.now).1 (arguments_of arguments.now)) }
{
    let called = called(&place.root, place.selectors.as_slice());
    add_head(uses, called, place)?;
    add_place(place, uses, c)?;
    let parameters = called_parameters(c, called);
    add_arguments(arguments, parameters, uses, c)?;
    Ok(())
}

/// Adds what arguments use: a place that is bound to an in-out may be changed.
#[cycle(uses)]
fn add_arguments<'p>(
    arguments: &'p [Argument<Note>],
    parameters: &[Parameter],
    uses: &mut Vec<Use<'p>>,
    c: Callables<'_, '_>,
) -> Result<(), NoMemory>
    requires { Knows c }
    ensures { OnOk result (uses_of uses.new.items ≡ uses_of uses.old.items ++ words.argument_uses (program_of c.entry.tables.now) (parameters_of parameters.now) (parameters_of parameters.now) (arguments_of arguments.now)) }
{
    let mut left = parameters;
    for argument in arguments {
        add_argument(argument, parameters, left, uses, c)?;
        left = left_behind(left, argument);
    }
    Ok(())
}

/// The parameters that are left behind an argument: one without a name takes the next.
#[tactic(auto, using(st_tree::specs::Expression::expression_views))]
fn left_behind<'a>(left: &'a [Parameter], argument: &Argument<Note>) -> &'a [Parameter]
    ensures { parameters_of result.now ≡ behind_argument (parameters_of left.now) (argument_of argument.now) }
{
    match argument {
        Argument::Positional(_) => behind_next(left),
        Argument::Input(_, _, _) => left,
        Argument::Output(_, _, _, _) => left,
    }
}

#[cycle(uses)]
fn add_argument<'p>(
    argument: &'p Argument<Note>,
    parameters: &[Parameter],
    left: &[Parameter],
    uses: &mut Vec<Use<'p>>,
    c: Callables<'_, '_>,
) -> Result<(), NoMemory>
    requires { Knows c }
    ensures { OnOk result (uses_of uses.new.items ≡ uses_of uses.old.items ++ one_argument (program_of c.entry.tables.now) (parameters_of parameters.now) (parameters_of left.now) (argument_of argument.now)) }
{
    match argument {
        Argument::Positional(value) => {
            add_bound(uses, is_bound(next_parameter(left)), value)?;
            add_expression(value, uses, c)?
        }
        Argument::Input(note, _, value) => {
            add_bound(uses, is_bound(parameter_named(parameters, note)), value)?;
            add_expression(value, uses, c)?
        }
        Argument::Output(_, _, _, place) => {
            add_changed(uses, &place.root, place.selectors.as_slice())?;
            add_place(place, uses, c)?
        }
    }
    Ok(())
}

/// Adds that the owner of a place is changed that is bound to an in-out.
#[tactic(auto, using(st_tree::specs::Expression::expression_views, crate::proofs::CallLaws::unbound))]
fn add_bound<'p>(
    uses: &mut Vec<Use<'p>>,
    is_bound: bool,
    value: &'p Expr<Note>,
) -> Result<(), NoMemory>
    ensures { OnOk result (uses_of uses.new.items ≡ uses_of uses.old.items ++ words.bound_uses is_bound (expression_of value.now)) }
{
    if !is_bound {
        return Ok(());
    }
    match value {
        Expr::Place(_, place) => add_changed(uses, &place.root, place.selectors.as_slice())?,
        Expr::Call(_, _, _) => {}
        Expr::Ref(_, _) => {}
        Expr::Int(_, _) => {}
        Expr::Typed(_, _, _) => {}
        Expr::Time(_, _) => {}
        Expr::True(_) => {}
        Expr::False(_) => {}
        Expr::Null(_) => {}
        Expr::Enumerator(_, _, _, _) => {}
        Expr::Now(_) => {}
        Expr::Paren(_, _) => {}
        Expr::Not(_, _) => {}
        Expr::Negate(_, _) => {}
        Expr::Chain(_, _, _) => {}
    }
    Ok(())
}
