//! What stands before DO in a FOR.

ghost use Rattle.std.specs.Prelude.{◌≡◌, false, IfOk, option_map};
ghost use Rattle.st_types.specs.Elem.{is_integer};
ghost use Rattle.st_tree.specs.Expression.{expression_of};
ghost use Rattle.st_rules.specs.Faults.{least};
ghost use Rattle.st_rules.specs.Kinds as kinds;
ghost use Rattle.st_rules.specs.Scope as scope;
ghost use Rattle.st_rules.specs.Places as places;
ghost use Rattle.st_rules.specs.Expressions as expressions;
ghost use Rattle.st_rules.specs.Statements as statements;
ghost use Rattle.name_resolution.specs.Meant.{meant};
ghost use Rattle.st_check_body.specs.st_body_parts.Found.{ControlFinds, StepFinds};

use crate::st_body_parts::found::{CheckedControl, CheckedStep};
use check_places::{meant_target, note, root_fault};
use name_resolution::{Meant, Scope};
use plc_text::{Code, NoMemory, Text};
use st_check_expr::check_whole;
use st_operators::asked_of;
use st_rules::{Asked, copied, earlier, when};
use st_tree::{Expr, Note, Root};
use st_types::StType;
use std::alloc::Global;

/// The rules of a name that stands alone.
#[tactic(auto, unfolding(st_rules::specs::Places::root_faults))]
pub fn bare_fault(
    alloc: Global,
    s: &Scope<'_>,
    line: u32,
    name: &Text,
) -> Result<Option<(Code, u32)>, NoMemory>
    ensures { IfOk result (λ f. f ≡ least (places.name_faults s.now line false (scope.sought s.now false name.now))) }
{
    let copy = Text::copy(alloc, name.as_str())?;
    let root = Root::Name(line, copy);
    let found = root_fault(s, false, &root, &[]);
    Ok(found)
}

/// The type of what a name means.
pub fn meant_type(alloc: Global, m: Option<Meant<'_>>) -> Result<Option<StType>, NoMemory>
    ensures { IfOk result (λ t. t ≡ statements.control_type (meant m.entry)) }
{
    match m {
        Some(Meant::Variable(_, v)) => {
            let t = copied(alloc, &v.kind)?;
            Ok(t)
        }
        Some(Meant::Enumerator(n, _)) => Ok(Some(StType::Enumeration(n))),
        Some(Meant::Method(_)) => Ok(None),
        Some(Meant::Function(_, _)) => Ok(None),
        None => Ok(None),
    }
}

/// The note of the variable of a FOR, which has this type.
fn control_note(line: u32, t: Option<StType>, m: Option<Meant<'_>>) -> Note
    ensures { result ≡ expressions.note line t (expressions.meant_target (meant m.entry)) }
{
    note(line, t, meant_target(m))
}

fn is_integer_type(t: &StType) -> bool
    ensures { result ≡ kinds.is_elementary is_integer t.now }
{
    match t {
        StType::Elementary(e) => e.is_integer(),
        _ => false,
    }
}

fn is_integer_variable(m: Option<Meant<'_>>) -> bool
    ensures { result ≡ statements.is_integer_variable (meant m.entry) }
{
    match m {
        Some(Meant::Variable(_, v)) => {
            if v.constant {
                return false;
            }
            match &v.kind {
                Some(t) => is_integer_type(t),
                None => true,
            }
        }
        Some(Meant::Enumerator(_, _)) => false,
        Some(Meant::Method(_)) => true,
        Some(Meant::Function(_, _)) => true,
        None => true,
    }
}

fn is_input_image(m: Option<Meant<'_>>) -> bool
    ensures { result ≡ statements.is_input_image (meant m.entry) }
{
    match m {
        Some(Meant::Variable(_, v)) => v.located_input,
        Some(Meant::Enumerator(_, _)) => false,
        Some(Meant::Method(_)) => false,
        Some(Meant::Function(_, _)) => false,
        None => false,
    }
}

/// The rules of the name behind FOR.
#[tactic(auto, using(st_rules::proofs::FaultLaws::faults))]
fn control_fault(
    alloc: Global,
    s: &Scope<'_>,
    line: u32,
    name: &Text,
) -> Result<Option<(Code, u32)>, NoMemory>
    ensures { IfOk result (λ f. f ≡ least (statements.control_faults s.now line name.now)) }
{
    let m = s.sought(false, name);
    let bare = bare_fault(alloc, s, line, name)?;
    let of_type = when(!is_integer_variable(m), Code::E07, line);
    let of_input = when(is_input_image(m), Code::E08, line);
    Ok(earlier(earlier(bare, of_type), of_input))
}

/// Checks the step, where there is one.
fn check_step(
    alloc: Global,
    s: &Scope<'_>,
    by: &Option<Expr<u32>>,
    asked: &Asked,
) -> Result<CheckedStep, NoMemory>
    ensures { IfOk result (λ c. StepFinds c s.now asked.now (option_map expression_of by.now)) }
{
    match by {
        Some(e) => {
            let x = check_whole(alloc, s, e, asked)?;
            Ok(CheckedStep {
                least: x.least,
                step: Some(x.into_tree()),
            })
        }
        None => Ok(CheckedStep {
            least: None,
            step: None,
        }),
    }
}

/// Checks the variable of a FOR, which stands at this line, its first and its last value, and its step.
pub fn check_control(
    alloc: Global,
    s: &Scope<'_>,
    line: u32,
    name: &Text,
    from: &Expr<u32>,
    to: &Expr<u32>,
    by: &Option<Expr<u32>>,
) -> Result<CheckedControl, NoMemory>
    ensures { IfOk result (λ c. ControlFinds c s.now line name.now (expression_of from.now) (expression_of to.now) (option_map expression_of by.now)) }
{
    let m = s.sought(false, name);
    let own = control_fault(alloc, s, line, name)?;
    let wanted = meant_type(alloc, m)?;
    let asked = asked_of(wanted);
    let first = check_whole(alloc, s, from, &asked)?;
    let last = check_whole(alloc, s, to, &asked)?;
    let step = check_step(alloc, s, by, &asked)?;
    let t = meant_type(alloc, m)?;
    let to_first = earlier(own, first.least);
    let to_last = earlier(to_first, last.least);
    let found = earlier(to_last, step.least);
    let own_note = control_note(line, t, m);
    Ok(CheckedControl {
        least: found,
        note: own_note,
        from: first.into_tree(),
        to: last.into_tree(),
        by: step.into_step(),
    })
}
