//! The walk over an expression: in one pass its type, the least rule that it breaks, and its typed tree.

ghost use Rattle.std.specs.Prelude.{◌≡◌, ◌&&◌, ◌<◌, ◌+◌, length, drop, IfOk};
ghost use Rattle.st_tree.specs.Expression.{no_tails, expression_of, expressions_of, selector_of, selectors_of, argument_of, arguments_of, tail_of, tails_of, place_of};
ghost use Rattle.st_tree.specs.Expression as tree;
ghost use Rattle.st_rules.specs.Places as places;
ghost use Rattle.check_places.specs.Standing.{standing};
ghost use Rattle.check_nodes.specs.Slots.{lent};
ghost use Rattle.check_nodes.specs.Slots as slot_views;
ghost use Rattle.check_nodes.specs.Found.{Checks};
ghost use Rattle.st_check_expr.specs.Walk.{PlaceFinds, ArgumentsFind};
ghost use Rattle.st_check_expr.specs.Private.Rows.{Keeps, StepsAhead, LooksAhead, RowGoes, row_rest};
ghost use Rattle.st_check_expr.specs.Private.Along.{AlongFinds, AlongGoes, SelectorFinds};
ghost use Rattle.st_check_expr.specs.Private.Lists.{IndicesFind, ArgumentFinds};

use check_nodes::{
    Ahead, Along, Arguments, Checked, CheckedArgument, CheckedPlace, CheckedSelector, Indices, Row,
    Slot, as_int, asked_for, asked_nothing, at_root, began, behind, closed, denied, duration,
    enclosed, ended_by, enumerator, extended, falsehood, finish, front_asked, input, int,
    is_last_at, is_untyped, joined, line_of, negated, negative, no_argument, no_index, noted_field,
    noted_index, noted_target, now, null, operand_asked, output, place_root_fault, positional,
    prepare, reference, slot_at, started, to_the_end, truth, typed_literal, whole, with_argument,
    with_index,
};
use check_places::{Standing, root_line, root_standing, selected, selector_fault, typed_root};
use name_resolution::Scope;
use plc_text::NoMemory;
use st_operators::{is_arithmetic, number_asked};
use st_rules::Asked;
use st_tree::{Argument, Expr, Place, Selector, Tail};
use std::alloc::Global;

/// Checks an expression at a place that asks for something.
#[cycle(check)]
pub fn check(
    alloc: Global,
    s: &Scope<'_>,
    e: &Expr<u32>,
    asked: &Asked,
) -> Result<Checked, NoMemory>
    ensures { IfOk result (λ c. Checks c s.now asked.now (expression_of e.now)) }
{
    match e {
        Expr::Int(line, digits) => int(alloc, *line, digits, asked),
        Expr::Typed(line, kind, literal) => typed_literal(alloc, *line, *kind, literal),
        Expr::Time(line, text) => duration(alloc, *line, text),
        Expr::True(line) => Ok(truth(*line)),
        Expr::False(line) => Ok(falsehood(*line)),
        Expr::Now(line) => Ok(now(*line)),
        Expr::Null(line) => null(alloc, *line, asked),
        Expr::Enumerator(line, type_name, name_line, name) => enumerator(
            alloc, s, *line, type_name, *name_line, name,
        ),
        Expr::Place(line, place) => {
            let selectors = place.selectors.as_slice();
            let x = check_place(alloc, s, place, false)?;
            whole(alloc, s, *line, &place.root, selectors, x)
        }
        Expr::Ref(line, place) => {
            let selectors = place.selectors.as_slice();
            let x = check_place(alloc, s, place, false)?;
            reference(alloc, s, *line, &place.root, selectors, x)
        }
        Expr::Call(line, place, arguments) => {
            let root = &place.root;
            let selectors = place.selectors.as_slice();
            let arguments = arguments.as_slice();
            let call = prepare(alloc, s, *line, root, selectors, arguments)?;
            let x = check_place(alloc, s, place, true)?;
            let xs = check_arguments(alloc, s, arguments, &call.slots)?;
            finish(alloc, s, *line, root, selectors, call, x, xs)
        }
        Expr::Paren(line, inner) => {
            let x = check(alloc, s, inner.get(), asked)?;
            enclosed(alloc, *line, x)
        }
        Expr::Not(line, inner) => {
            let inner = inner.get();
            let x = check(alloc, s, inner, &Asked::Anything)?;
            denied(alloc, *line, line_of(inner), x)
        }
        Expr::Negate(line, inner) => check_negate(alloc, s, inner.get(), *line, asked),
        Expr::Chain(line, first, tails) => {
            let first = first.get();
            let tails = tails.as_slice();
            let untyped = is_untyped(first);
            let ahead = look_ahead(alloc, s, tails, untyped, asked)?;
            let (wanted, kept) = ahead.into_parts();
            let x = check(alloc, s, first, &wanted)?;
            let row = began(alloc, untyped, x);
            let front = RowSoFar { row, kept };
            let row = check_tails(alloc, s, tails, front, &wanted)?;
            closed(alloc, *line, row)
        }
    }
}

/// Checks `-` before an expression; before an int it belongs to it.
#[cycle(check)]
fn check_negate(
    alloc: Global,
    s: &Scope<'_>,
    inner: &Expr<u32>,
    line: u32,
    asked: &Asked,
) -> Result<Checked, NoMemory>
    ensures { IfOk result (λ c. Checks c s.now asked.now (tree.Negate line (expression_of inner.now))) }
{
    match as_int(inner) {
        Some((int_line, digits)) => negative(alloc, line, int_line, digits, asked),
        None => {
            let wanted = front_asked(is_untyped(inner), number_asked(asked));
            let x = check(alloc, s, inner, &wanted)?;
            negated(alloc, line, line_of(inner), x)
        }
    }
}

/// What an untyped front of a row is asked for by what stands behind it. The operand that ends it is checked here, and kept for its turn.
#[cycle(check)]
fn look_ahead(
    alloc: Global,
    s: &Scope<'_>,
    tails: &[Tail<u32>],
    untyped: bool,
    asked: &Asked,
) -> Result<Ahead, NoMemory>
    ensures { IfOk result (λ a. LooksAhead a s.now untyped asked.now (tails_of tails.now)) }
{
    if !untyped {
        return Ok(asked_nothing());
    }
    let mut passed = false;
    for tail in tails {
        let step = ahead_step(alloc, s, tail)?;
        match step {
            Some(ahead) => return Ok(behind(passed, ahead)),
            None => passed = true,
        }
    }
    to_the_end(alloc, passed, asked)
}

/// Whether the untyped front of a row ends at this operand; nothing where it goes on.
#[cycle(check)]
fn ahead_step(alloc: Global, s: &Scope<'_>, tail: &Tail<u32>) -> Result<Option<Ahead>, NoMemory>
    ensures { IfOk result (λ r. StepsAhead r s.now (tail_of tail.now).0 (tail_of tail.now).1 (tail_of tail.now).2) }
{
    if !is_untyped(&tail.operand) {
        let x = check(alloc, s, &tail.operand, &Asked::Anything)?;
        let ahead = ended_by(alloc, x)?;
        return Ok(Some(ahead));
    }
    if is_arithmetic(tail.operator) {
        Ok(None)
    } else {
        Ok(Some(asked_nothing()))
    }
}

/// A row so far, and the next operand with a type of its own where it is checked already.
#[derive(Drop)]
struct RowSoFar {
    row: Row,
    kept: Option<Checked>,
}

/// Checks the operators and operands behind the first operand of a row, which is asked for something.
#[cycle(check)]
fn check_tails(
    alloc: Global,
    s: &Scope<'_>,
    tails: &[Tail<u32>],
    front: RowSoFar,
    asked: &Asked,
) -> Result<Row, NoMemory>
    requires { Keeps front.kept s.now (tails_of tails.now) }
    ensures { IfOk result (λ r. row_rest s.now asked.now r no_tails ≡ row_rest s.now asked.now front.row (tails_of tails.now)) }
{
    let mut so_far = front;
    for tail in tails {
        so_far = row_step(alloc, s, tail, so_far, asked)?;
    }
    Ok(so_far.row)
}

/// Checks one operator and its operand.
#[cycle(check)]
fn row_step(
    alloc: Global,
    s: &Scope<'_>,
    tail: &Tail<u32>,
    so_far: RowSoFar,
    asked: &Asked,
) -> Result<RowSoFar, NoMemory>
    ensures { IfOk result (λ x. RowGoes s.now asked.now so_far x (tail_of tail.now).0 (tail_of tail.now).1 (tail_of tail.now).2) }
{
    let RowSoFar { row, kept } = so_far;
    let own = line_of(&tail.operand);
    if is_untyped(&tail.operand) {
        let wanted = operand_asked(alloc, &row, asked)?;
        let x = check(alloc, s, &tail.operand, &wanted)?;
        let row = joined(alloc, tail.note, tail.operator, own, true, row, x)?;
        return Ok(RowSoFar { row, kept });
    }
    match kept {
        Some(x) => {
            let row = joined(alloc, tail.note, tail.operator, own, false, row, x)?;
            Ok(RowSoFar { row, kept: None })
        }
        None => {
            let x = check(alloc, s, &tail.operand, &Asked::Anything)?;
            let row = joined(alloc, tail.note, tail.operator, own, false, row, x)?;
            Ok(RowSoFar { row, kept: None })
        }
    }
}

/// Checks what a place begins with and its selectors, where a call stands behind it or not.
#[cycle(check)]
pub fn check_place(
    alloc: Global,
    s: &Scope<'_>,
    place: &Place<u32>,
    called: bool,
) -> Result<CheckedPlace, NoMemory>
    ensures { IfOk result (λ x. PlaceFinds x s.now called (place_of place.now).0 (place_of place.now).1) }
{
    let root = &place.root;
    let selectors = place.selectors.as_slice();
    let of_root = place_root_fault(s, called, root, selectors);
    let b = root_standing(s, root, selectors);
    let along = check_along(alloc, s, selectors, root_line(root), called, b)?;
    let root = typed_root(alloc, s, called, root, selectors)?;
    Ok(at_root(of_root, root, along))
}

/// Whether a call stands behind the selector of this number, where one stands behind the place or not.
fn is_called_at(called: bool, selectors: &[Selector<u32>], number: usize) -> bool
    requires { number < length selectors.now }
    ensures { result ≡ (called && places.is_last (selectors_of (drop (number + 1) selectors.now))) }
{
    called && is_last_at(selectors, number)
}

/// Checks the selectors of a place, which begins at this line and before which this stands.
#[cycle(check)]
fn check_along<'a>(
    alloc: Global,
    s: &Scope<'a>,
    selectors: &[Selector<u32>],
    line: u32,
    called: bool,
    b: Standing<'a>,
) -> Result<Along<'a>, NoMemory>
    ensures { IfOk result (λ x. AlongFinds x s.now line called (standing b.entry) (selectors_of selectors.now)) }
{
    let mut so_far = started(alloc, b);
    for (number, selector) in selectors.iter().enumerate() {
        let here = is_called_at(called, selectors, number);
        so_far = along_step(alloc, s, selector, line, here, so_far)?;
    }
    Ok(so_far)
}

/// Checks one selector, where a call stands behind it or not.
#[cycle(check)]
fn along_step<'a>(
    alloc: Global,
    s: &Scope<'a>,
    selector: &Selector<u32>,
    line: u32,
    called: bool,
    so_far: Along<'a>,
) -> Result<Along<'a>, NoMemory>
    ensures { IfOk result (λ x. AlongGoes s.now line called so_far.entry x (selector_of selector.now)) }
{
    let b = so_far.standing;
    let next = selected(s, b, selector);
    let one = check_selector(alloc, s, selector, line, called, b, next)?;
    extended(so_far, next, one)
}

/// Checks a selector between what stands before it and what stands behind it.
#[cycle(check)]
fn check_selector(
    alloc: Global,
    s: &Scope<'_>,
    selector: &Selector<u32>,
    line: u32,
    called: bool,
    b: Standing<'_>,
    next: Standing<'_>,
) -> Result<CheckedSelector, NoMemory>
    requires { standing next ≡ places.selected s.now (standing b) (selector_of selector.now) }
    ensures { IfOk result (λ c. SelectorFinds c s.now line called (standing b.entry) (selector_of selector.now)) }
{
    let own = selector_fault(s, line, called, b, selector);
    match selector {
        Selector::Field(line, name) => noted_field(alloc, s, called, b, own, *line, name),
        Selector::Index(line, indices) => {
            let found = check_indices(alloc, s, indices.as_slice())?;
            noted_index(alloc, next, own, *line, found)
        }
        Selector::Target(line) => noted_target(alloc, next, own, *line),
    }
}

/// Checks indices.
#[cycle(check)]
fn check_indices(alloc: Global, s: &Scope<'_>, indices: &[Expr<u32>]) -> Result<Indices, NoMemory>
    ensures { IfOk result (λ x. IndicesFind x s.now (expressions_of indices.now)) }
{
    let mut so_far = no_index(alloc);
    for index in indices {
        let x = check(alloc, s, index, &Asked::Anything)?;
        so_far = with_index(so_far, line_of(index), x)?;
    }
    Ok(so_far)
}

/// Checks arguments, each with the parameter that it is for.
#[cycle(check)]
pub fn check_arguments(
    alloc: Global,
    s: &Scope<'_>,
    arguments: &[Argument<u32>],
    slots: &[Option<Slot>],
) -> Result<Arguments, NoMemory>
    ensures { IfOk result (λ x. ArgumentsFind x s.now (slot_views.slots slots.now) (arguments_of arguments.now)) }
{
    let mut so_far = no_argument(alloc);
    for (number, argument) in arguments.iter().enumerate() {
        let m = slot_at(slots, number);
        let x = check_argument(alloc, s, argument, m)?;
        so_far = with_argument(so_far, x)?;
    }
    Ok(so_far)
}

/// Checks one argument with the parameter that it is for.
#[cycle(check)]
fn check_argument(
    alloc: Global,
    s: &Scope<'_>,
    argument: &Argument<u32>,
    m: Option<&Slot>,
) -> Result<CheckedArgument, NoMemory>
    ensures { IfOk result (λ c. ArgumentFinds c s.now (lent m.entry) (argument_of argument.now)) }
{
    match argument {
        Argument::Positional(value) => {
            let asked = asked_for(alloc, m)?;
            let x = check(alloc, s, value, &asked)?;
            Ok(positional(s, m, value, x))
        }
        Argument::Input(line, name, value) => {
            let asked = asked_for(alloc, m)?;
            let x = check(alloc, s, value, &asked)?;
            input(alloc, s, m, *line, name, value, x)
        }
        Argument::Output(line, name, place_line, place) => {
            let root = &place.root;
            let selectors = place.selectors.as_slice();
            let x = check_place(alloc, s, place, false)?;
            output(alloc, s, m, *line, name, *place_line, root, selectors, x)
        }
    }
}
