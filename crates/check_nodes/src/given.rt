//! Values and places that arguments give to parameters.

ghost use Rattle.std.specs.Prelude.{◌≡◌, ◌++◌, IfOk};
ghost use Rattle.st_tree.specs.Expression.{expression_of, selectors_of};
ghost use Rattle.st_rules.specs.Faults.{least};
ghost use Rattle.st_rules.specs.Calls as calls;
ghost use Rattle.st_rules.specs.Literals as literals;
ghost use Rattle.st_rules.specs.Places as places;
ghost use Rattle.st_rules.specs.Expressions as expressions;
ghost use Rattle.check_nodes.specs.Slots.{lent};
ghost use Rattle.check_nodes.specs.Given.{GivesPositional, GivesInput, GivesOutput};

use crate::found::Checked;
use crate::lists::CheckedArgument;
use crate::slots::Slot;
use crate::untyped::line_of;
use crate::wholes::CheckedPlace;
use check_calls::{binding_fault, is_assignable, output_fault};
use check_places::{
    is_fixed, note, note_of, placed, root_line, standing_type, target_fault, whole_fault,
};
use name_resolution::Scope;
use plc_text::{Code, NoMemory, Text};
use st_operators::asked_of;
use st_rules::{Asked, copied, earlier, when};
use st_tree::{Argument, Expr, Note, Root, SectionSort, Selector, Target};
use st_types::StType;
use std::alloc::Global;

/// What an argument is asked for: for a type that cannot be told where it is for no parameter.
#[tactic(auto, unfolding(st_rules::specs::Calls::asked_by))]
pub fn asked_for(alloc: Global, m: Option<&Slot>) -> Result<Asked, NoMemory>
    ensures { IfOk result (λ a. a ≡ calls.asked_by (lent m.entry)) }
{
    match m {
        Some(m) => {
            let t = copied(alloc, &m.kind)?;
            Ok(asked_of(t))
        }
        None => Ok(Asked::Untold),
    }
}

/// The type of the parameter.
fn matched_type(alloc: Global, m: Option<&Slot>) -> Result<Option<StType>, NoMemory>
    ensures { IfOk result (λ t. t ≡ calls.matched_type (lent m.entry)) }
{
    match m {
        Some(m) => {
            let t = copied(alloc, &m.kind)?;
            Ok(t)
        }
        None => Ok(None),
    }
}

/// The parameter as what a name means. Memory ends before there are 2^32 of them.
#[tactic(auto, unfolding(st_rules::specs::Expressions::matched_target))]
fn matched_target(m: Option<&Slot>) -> Result<Target, NoMemory>
    ensures { IfOk result (λ t. t ≡ expressions.matched_target (lent m.entry)) }
{
    match m {
        Some(m) => match u32::try_from(m.number) {
            Ok(number) => Ok(Target::Parameter(number)),
            Err(_) => Err(NoMemory),
        },
        None => Ok(Target::Nothing),
    }
}

/// The note of an argument's name.
fn parameter_note(alloc: Global, line: u32, m: Option<&Slot>) -> Result<Note, NoMemory>
    ensures { IfOk result (λ n. n ≡ expressions.note line (calls.matched_type (lent m.entry)) (expressions.matched_target (lent m.entry))) }
{
    let t = matched_type(alloc, m)?;
    let target = matched_target(m)?;
    Ok(note(line, t, target))
}

fn is_in_out_sort(sort: SectionSort) -> bool
    ensures { result ≡ calls.is_in_out_sort sort }
{
    matches!(sort, SectionSort::InOut)
}

fn is_bindable_place(s: &Scope<'_>, e: &Expr<u32>) -> bool
    ensures { result ≡ calls.is_bindable_place s.now (expression_of e.now) }
{
    match e {
        Expr::Place(_, place) => !is_fixed(s, &place.root, place.selectors.as_slice()),
        Expr::Int(_, _) => false,
        Expr::Typed(_, _, _) => false,
        Expr::Time(_, _) => false,
        Expr::True(_) => false,
        Expr::False(_) => false,
        Expr::Null(_) => false,
        Expr::Call(_, _, _) => false,
        Expr::Enumerator(_, _, _, _) => false,
        Expr::Ref(_, _) => false,
        Expr::Now(_) => false,
        Expr::Paren(_, _) => false,
        Expr::Not(_, _) => false,
        Expr::Negate(_, _) => false,
        Expr::Chain(_, _, _) => false,
    }
}

/// What is bound to an in-out of this type and will not do.
#[tactic(auto, using(st_rules::proofs::FaultLaws::faults))]
fn in_out_fault(
    s: &Scope<'_>,
    e: &Expr<u32>,
    parameter: &Option<StType>,
    t: &Option<StType>,
) -> Option<(Code, u32)>
    ensures { result ≡ least (calls.bound_to_another_type s.now (expressions.line_of (expression_of e.now)) parameter.now t.now
        ++ calls.bound_no_variable s.now (expressions.line_of (expression_of e.now)) (expression_of e.now)) }
{
    let line = line_of(e);
    earlier(
        binding_fault(s, line, parameter, t),
        when(!is_bindable_place(s, e), Code::E08, line),
    )
}

/// A value that does not suit an input of this type.
#[tactic(auto, unfolding(st_rules::specs::Calls::value_unsuited, st_rules::specs::Literals::asked_of))]
fn input_fault(
    s: &Scope<'_>,
    line: u32,
    parameter: &Option<StType>,
    t: &Option<StType>,
) -> Option<(Code, u32)>
    ensures { result ≡ least (calls.value_unsuited s.now line (literals.asked_of parameter.now) t.now) }
{
    match parameter {
        Some(u) => match t {
            Some(t) => when(!is_assignable(s, t, u), Code::E07, line),
            None => None,
        },
        None => None,
    }
}

/// A value of this type that does not suit its parameter, or what is bound to an in-out and will not do.
#[tactic(auto, unfolding(st_rules::specs::Expressions::given_unsuited, st_rules::specs::Calls::asked_by, st_rules::specs::Calls::matched_type, st_rules::specs::Calls::value_unsuited))]
fn given_fault(
    s: &Scope<'_>,
    m: Option<&Slot>,
    e: &Expr<u32>,
    t: &Option<StType>,
) -> Option<(Code, u32)>
    ensures { result ≡ least (expressions.given_unsuited s.now (lent m.entry) (expression_of e.now) t.now) }
{
    match m {
        Some(m) => {
            if is_in_out_sort(m.sort) {
                in_out_fault(s, e, &m.kind, t)
            } else {
                input_fault(s, line_of(e), &m.kind, t)
            }
        }
        None => None,
    }
}

/// A positional argument, from what is found out about its value.
#[tactic(auto, using(crate::proofs::Views::positional_view))]
pub fn positional(s: &Scope<'_>, m: Option<&Slot>, e: &Expr<u32>, value: Checked) -> CheckedArgument
    ensures { GivesPositional result s.now (lent m.entry) (expression_of e.now) value }
{
    let own = given_fault(s, m, e, &value.told);
    CheckedArgument {
        least: earlier(value.least, own),
        argument: Argument::Positional(value.into_tree()),
    }
}

/// `name := value`, from what is found out about its value.
#[tactic(auto, using(crate::proofs::Views::input_view))]
pub fn input(
    alloc: Global,
    s: &Scope<'_>,
    m: Option<&Slot>,
    line: u32,
    name: &Text,
    e: &Expr<u32>,
    value: Checked,
) -> Result<CheckedArgument, NoMemory>
    ensures { IfOk result (λ x. GivesInput x s.now (lent m.entry) line name.now (expression_of e.now) value) }
{
    let own = given_fault(s, m, e, &value.told);
    let note = parameter_note(alloc, line, m)?;
    let name = Text::copy(alloc, name.as_str())?;
    Ok(CheckedArgument {
        least: earlier(value.least, own),
        argument: Argument::Input(note, name, value.into_tree()),
    })
}

/// The rules of a place that takes an output, but those of its root and its selectors.
#[tactic(auto, using(st_rules::proofs::FaultLaws::faults))]
fn taking_fault(
    s: &Scope<'_>,
    m: Option<&Slot>,
    root: &Root<u32>,
    selectors: &[Selector<u32>],
    told: &Option<StType>,
) -> Option<(Code, u32)>
    ensures { result ≡ least (places.whole_faults s.now root.now (selectors_of selectors.now)
        ++ places.target_faults s.now root.now (selectors_of selectors.now)
        ++ calls.output_unsuited s.now (places.root_line root.now) (calls.matched_type (lent m.entry)) told.now) }
{
    let as_target = earlier(
        whole_fault(s, root, selectors),
        target_fault(s, root, selectors),
    );
    earlier(as_target, taken_fault(s, root_line(root), m, told))
}

/// An output that is not to be assigned to a place of this type.
fn taken_fault(
    s: &Scope<'_>,
    line: u32,
    m: Option<&Slot>,
    told: &Option<StType>,
) -> Option<(Code, u32)>
    ensures { result ≡ least (calls.output_unsuited s.now line (calls.matched_type (lent m.entry)) told.now) }
{
    match m {
        Some(m) => output_fault(s, line, &m.kind, told),
        None => None,
    }
}

/// `name => place`, with the lines of both, from what is found out about the place.
#[tactic(auto, using(crate::proofs::Views::output_views))]
pub fn output(
    alloc: Global,
    s: &Scope<'_>,
    m: Option<&Slot>,
    line: u32,
    name: &Text,
    place_line: u32,
    root: &Root<u32>,
    selectors: &[Selector<u32>],
    place: CheckedPlace,
) -> Result<CheckedArgument, NoMemory>
    ensures { IfOk result (λ x. GivesOutput x s.now (lent m.entry) line name.now place_line root.now (selectors_of selectors.now) place) }
{
    let b = placed(s, root, selectors);
    let told = standing_type(alloc, b)?;
    let own = taking_fault(s, m, root, selectors, &told);
    let name_note = parameter_note(alloc, line, m)?;
    let place_note = note_of(alloc, place_line, b, Target::Nothing)?;
    let name = Text::copy(alloc, name.as_str())?;
    Ok(CheckedArgument {
        least: earlier(place.least, own),
        argument: Argument::Output(name_note, name, place_note, place.into_place()),
    })
}
