//! Parts of an expression that are no constants.

ghost use Rattle.std.specs.Prelude.{◌≡◌, if◌then◌else◌};
ghost use Rattle.plc_text.specs.declared.code.Code.TheVariants.{E05};
ghost use Rattle.st_tree.specs.Expression.{expression_of, argument_of, arguments_of, place_of, selectors_of, tails_of};
ghost use Rattle.st_rules.specs.Expressions.{is_conversion};
ghost use Rattle.st_rules.specs.Faults as faults;
ghost use Rattle.st_rules.specs.Faults.{least};
ghost use Rattle.st_unit_rules.specs.declared_names.Constants as constants;
ghost use Rattle.constant_folding.specs.constant_rules.Private.Parts.{argument_part, place_part};

use crate::constant_rules::places::{constant_place_fault, is_conversion};
use name_resolution::Scope;
use plc_text::Code;
use st_rules::{at, earlier};
use st_tree::{Argument, Expr, Place, Tail};

/// E05 where a place is no constant.
fn place_fault(s: &Scope<'_>, place: &Place<u32>) -> Option<(Code, u32)>
    ensures { result ≡ least (place_part s.now (place_of place.now)) }
{
    constant_place_fault(s, &place.root, place.selectors.as_slice())
}

/// What the operands of a conversion break, or E05 where something else is called.
fn call_fault(
    s: &Scope<'_>,
    line: u32,
    place: &Place<u32>,
    operands: Option<(Code, u32)>,
) -> Option<(Code, u32)>
    ensures { result ≡ (if is_conversion s.now place.now.root (selectors_of place.now.selectors) then operands else least (faults.at E05 line)) }
{
    if is_conversion(s, &place.root, place.selectors.as_slice()) {
        operands
    } else {
        at(Code::E05, line)
    }
}

/// E05 at the least line of a part of an expression that is no constant, no literal, and no conversion or operator over such ones.
#[cycle(parts)]
#[tactic(auto, using(crate::proofs::constant_rules::PartLaws::leaf_parts))]
pub fn constant_part_fault(s: &Scope<'_>, e: &Expr<u32>) -> Option<(Code, u32)>
    ensures { result ≡ least (constants.no_constant_part s.now (expression_of e.now)) }
{
    match e {
        Expr::Place(_, place) => place_fault(s, place),
        Expr::Call(line, place, arguments) => {
            let operands = arguments_fault(s, arguments.as_slice());
            call_fault(s, *line, place, operands)
        }
        Expr::Paren(_, inner) => constant_part_fault(s, inner.get()),
        Expr::Not(_, inner) => constant_part_fault(s, inner.get()),
        Expr::Negate(_, inner) => constant_part_fault(s, inner.get()),
        Expr::Chain(_, first, tails) => {
            let front = constant_part_fault(s, first.get());
            let rest = operands_fault(s, tails.as_slice());
            earlier(front, rest)
        }
        Expr::Ref(line, _) => at(Code::E05, *line),
        Expr::Now(line) => at(Code::E05, *line),
        Expr::Int(_, _) => None,
        Expr::Typed(_, _, _) => None,
        Expr::Time(_, _) => None,
        Expr::True(_) => None,
        Expr::False(_) => None,
        Expr::Null(_) => None,
        Expr::Enumerator(_, _, _, _) => None,
    }
}

#[cycle(parts)]
fn operands_fault(s: &Scope<'_>, tails: &[Tail<u32>]) -> Option<(Code, u32)>
    ensures { result ≡ least (constants.no_constant_operand s.now (tails_of tails.now)) }
{
    let mut found = None;
    for tail in tails {
        let fault = constant_part_fault(s, &tail.operand);
        found = earlier(found, fault);
    }
    found
}

#[cycle(parts)]
fn argument_fault(s: &Scope<'_>, argument: &Argument<u32>) -> Option<(Code, u32)>
    ensures { result ≡ least (argument_part s.now (argument_of argument.now)) }
{
    match argument {
        Argument::Positional(value) => constant_part_fault(s, value),
        Argument::Input(_, _, value) => constant_part_fault(s, value),
        Argument::Output(_, _, _, place) => place_fault(s, place),
    }
}

#[cycle(parts)]
fn arguments_fault(s: &Scope<'_>, arguments: &[Argument<u32>]) -> Option<(Code, u32)>
    ensures { result ≡ least (constants.no_constant_argument s.now (arguments_of arguments.now)) }
{
    let mut found = None;
    for argument in arguments {
        let fault = argument_fault(s, argument);
        found = earlier(found, fault);
    }
    found
}
