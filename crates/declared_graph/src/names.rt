//! What expressions name.

ghost use Rattle.std.specs.Prelude.{◌≡◌, ◌++◌, OnOk};
ghost use Rattle.st_tree.specs.Expression.{expression_of, expressions_of, place_of, argument_of, arguments_of, selector_of, selectors_of, tail_of, tails_of};
ghost use Rattle.st_unit_rules.specs.Cycles as cycles;
ghost use Rattle.declared_graph.specs.Private.Names.{named_as, all_named, is_field, named_with, named_in_place};

use plc_text::{NoMemory, Text};
use st_tree::{Argument, Expr, Place, Root, Selector, Tail};

/// What a text names.
#[derive(Clone, Copy)]
pub enum Named<'a> {
    /// A name alone, or with something behind it that is no `.`.
    Alone(&'a Text),
    BeforeDot(&'a Text),
    /// With its line.
    BeforeHash(u32, &'a Text),
}

#[tactic(auto, using(st_tree::specs::Expression::expression_views))]
fn is_field(selector: &Selector<u32>) -> bool
    ensures { result ≡ is_field (selector_of selector.now) }
{
    match selector {
        Selector::Field(_, _) => true,
        Selector::Index(_, _) => false,
        Selector::Target(_) => false,
    }
}

#[tactic(auto, using(crate::proofs::NameLaws::begins_by_first))]
fn begins_with_field(selectors: &[Selector<u32>]) -> bool
    ensures { result ≡ cycles.begins_with_field (selectors_of selectors.now) }
{
    match selectors.split_first() {
        Some((first, _)) => is_field(first),
        None => false,
    }
}

fn with_name<'a>(before_dot: bool, name: &'a Text) -> Named<'a>
    ensures { named_as result ≡ named_with before_dot name.now }
{
    if before_dot {
        Named::BeforeDot(name)
    } else {
        Named::Alone(name)
    }
}

/// Adds the name with which a place begins.
fn add_root<'a>(list: &mut Vec<Named<'a>>, place: &'a Place<u32>) -> Result<(), NoMemory>
    ensures { OnOk result (all_named list.new.items ≡ all_named list.old.items ++ cycles.named_by_root (place_of place.now).0 (place_of place.now).1) }
{
    let before_dot = begins_with_field(place.selectors.as_slice());
    match &place.root {
        Root::Name(_, name) => list.push(with_name(before_dot, name))?,
        Root::This(_) => {}
        Root::Super(_) => {}
    }
    Ok(())
}

/// Adds what a place names.
#[cycle(names)]
fn add_place<'a>(list: &mut Vec<Named<'a>>, place: &'a Place<u32>) -> Result<(), NoMemory>
    ensures { OnOk result (all_named list.new.items ≡ all_named list.old.items ++ named_in_place (place_of place.now).0 (place_of place.now).1) }
{
    add_root(list, place)?;
    add_selectors(list, place.selectors.as_slice())?;
    Ok(())
}

#[cycle(names)]
fn add_selectors<'a>(
    list: &mut Vec<Named<'a>>,
    selectors: &'a [Selector<u32>],
) -> Result<(), NoMemory>
    ensures { OnOk result (all_named list.new.items ≡ all_named list.old.items ++ cycles.named_in_selectors (selectors_of selectors.now)) }
{
    for selector in selectors {
        add_selector(list, selector)?;
    }
    Ok(())
}

#[cycle(names)]
fn add_selector<'a>(list: &mut Vec<Named<'a>>, selector: &'a Selector<u32>) -> Result<(), NoMemory>
    ensures { OnOk result (all_named list.new.items ≡ all_named list.old.items ++ cycles.named_in_selector (selector_of selector.now)) }
{
    match selector {
        Selector::Index(_, indices) => add_indices(list, indices.as_slice())?,
        Selector::Field(_, _) => {}
        Selector::Target(_) => {}
    }
    Ok(())
}

#[cycle(names)]
fn add_indices<'a>(list: &mut Vec<Named<'a>>, indices: &'a [Expr<u32>]) -> Result<(), NoMemory>
    ensures { OnOk result (all_named list.new.items ≡ all_named list.old.items ++ cycles.named_in_expressions (expressions_of indices.now)) }
{
    for index in indices {
        add_expression(list, index)?;
    }
    Ok(())
}

/// Adds what an expression names.
#[cycle(names)]
pub fn add_expression<'a>(list: &mut Vec<Named<'a>>, e: &'a Expr<u32>) -> Result<(), NoMemory>
    ensures { OnOk result (all_named list.new.items ≡ all_named list.old.items ++ cycles.named_in (expression_of e.now)) }
{
    match e {
        Expr::Place(_, place) => add_place(list, place)?,
        Expr::Ref(_, place) => add_place(list, place)?,
        Expr::Call(_, place, arguments) => {
            add_place(list, place)?;
            add_arguments(list, arguments.as_slice())?
        }
        Expr::Enumerator(line, name, _, _) => list.push(Named::BeforeHash(*line, name))?,
        Expr::Paren(_, inner) => add_expression(list, inner.get())?,
        Expr::Not(_, inner) => add_expression(list, inner.get())?,
        Expr::Negate(_, inner) => add_expression(list, inner.get())?,
        Expr::Chain(_, first, tails) => {
            add_expression(list, first.get())?;
            add_tails(list, tails.as_slice())?
        }
        Expr::Int(_, _) => {}
        Expr::Typed(_, _, _) => {}
        Expr::Time(_, _) => {}
        Expr::True(_) => {}
        Expr::False(_) => {}
        Expr::Null(_) => {}
        Expr::Now(_) => {}
    }
    Ok(())
}

#[cycle(names)]
fn add_tail<'a>(list: &mut Vec<Named<'a>>, tail: &'a Tail<u32>) -> Result<(), NoMemory>
    ensures { OnOk result (all_named list.new.items ≡ all_named list.old.items ++ cycles.named_in (tail_of tail.now).2) }
{
    add_expression(list, &tail.operand)
}

#[cycle(names)]
fn add_tails<'a>(list: &mut Vec<Named<'a>>, tails: &'a [Tail<u32>]) -> Result<(), NoMemory>
    ensures { OnOk result (all_named list.new.items ≡ all_named list.old.items ++ cycles.named_in_tails (tails_of tails.now)) }
{
    for tail in tails {
        add_tail(list, tail)?;
    }
    Ok(())
}

#[cycle(names)]
fn add_argument<'a>(list: &mut Vec<Named<'a>>, argument: &'a Argument<u32>) -> Result<(), NoMemory>
    ensures { OnOk result (all_named list.new.items ≡ all_named list.old.items ++ cycles.named_in_argument (argument_of argument.now)) }
{
    match argument {
        Argument::Positional(value) => add_expression(list, value)?,
        Argument::Input(_, _, value) => add_expression(list, value)?,
        Argument::Output(_, _, _, place) => add_place(list, place)?,
    }
    Ok(())
}

#[cycle(names)]
fn add_arguments<'a>(
    list: &mut Vec<Named<'a>>,
    arguments: &'a [Argument<u32>],
) -> Result<(), NoMemory>
    ensures { OnOk result (all_named list.new.items ≡ all_named list.old.items ++ cycles.named_in_arguments (arguments_of arguments.now)) }
{
    for argument in arguments {
        add_argument(list, argument)?;
    }
    Ok(())
}
