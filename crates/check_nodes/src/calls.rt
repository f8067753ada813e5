//! Calls, from what is found out about their places and their arguments.

ghost use Rattle.std.specs.Prelude.{◌≡◌, IfOk};
ghost use Rattle.st_tree.specs.Expression.{selectors_of, arguments_of};
ghost use Rattle.st_rules.specs.Calls as calls;
ghost use Rattle.check_calls.specs.Callee.{called};
ghost use Rattle.check_calls.specs.Parameters.{parameters_of};
ghost use Rattle.check_nodes.specs.Calls.{IsPrepared, Finishes};

use crate::found::{Checked, noted};
use crate::lists::Arguments;
use crate::slots::{Slot, slots_of};
use crate::wholes::CheckedPlace;
use check_calls::{
    Callee, block_parameters, call_type, callee_at, callee_fault, heads_of, is_on_super, matches,
    operand_of, result_fault, routine_parameters,
};
use check_places::{root_line, selectors_fault};
use name_resolution::Scope;
use plc_text::{Code, NoMemory};
use st_rules::{DeclaredVariable, earlier};
use st_tree::{Argument, Expr, Root, Selector};
use st_types::{Elem, StType};
use std::alloc::Global;

/// A call before its place and its arguments are checked.
#[derive(Drop)]
pub struct Prepared {
    /// The type of its value.
    pub told: Option<StType>,
    /// The least rule that it breaks by what it calls and how its arguments are written.
    pub least: Option<(Code, u32)>,
    /// The rule that it breaks as an expression, where it has no value.
    pub of_result: Option<(Code, u32)>,
    /// The parameter that each argument is for.
    pub slots: Vec<Option<Slot>>,
}

/// The same of what is called, with these parameters.
#[tactic(auto, unfolding(st_rules::specs::Calls::call_matches))]
fn prepare_with(
    alloc: Global,
    s: &Scope<'_>,
    line: u32,
    on_super: bool,
    callee: Callee<'_>,
    parameters: &[&DeclaredVariable],
    arguments: &[Argument<u32>],
) -> Result<Prepared, NoMemory>
    requires { parameters_of parameters.now ≡ calls.callee_parameters s.now (called callee) }
    ensures { IfOk result (λ x. IsPrepared x s.now line on_super (called callee.entry) (calls.heads (arguments_of arguments.now))) }
{
    let heads = heads_of(alloc, arguments)?;
    let least = callee_fault(alloc, s, line, on_super, callee, parameters, &heads)?;
    let matches = matches(alloc, parameters, &heads)?;
    let slots = slots_of(alloc, &matches)?;
    let told = call_type(alloc, callee)?;
    Ok(Prepared {
        told,
        least,
        of_result: result_fault(line, callee),
        slots,
    })
}

/// A conversion has its operand as a parameter.
fn prepare_conversion(
    alloc: Global,
    s: &Scope<'_>,
    line: u32,
    on_super: bool,
    from: Elem,
    to: Elem,
    arguments: &[Argument<u32>],
) -> Result<Prepared, NoMemory>
    ensures { IfOk result (λ x. IsPrepared x s.now line on_super (calls.a_conversion from to) (calls.heads (arguments_of arguments.now))) }
{
    let callee = Callee::Conversion(from, to);
    let operand = operand_of(alloc, callee);
    let mut parameters = Vec::new(alloc);
    parameters.push(&operand)?;
    prepare_with(alloc, s, line, on_super, callee, &parameters, arguments)
}

fn prepare_for(
    alloc: Global,
    s: &Scope<'_>,
    line: u32,
    on_super: bool,
    callee: Callee<'_>,
    arguments: &[Argument<u32>],
) -> Result<Prepared, NoMemory>
    ensures { IfOk result (λ x. IsPrepared x s.now line on_super (called callee.entry) (calls.heads (arguments_of arguments.now))) }
{
    match callee {
        Callee::Conversion(from, to) => prepare_conversion(
            alloc, s, line, on_super, from, to, arguments,
        ),
        Callee::Routine(r) => {
            let parameters = routine_parameters(alloc, r.parameters.as_slice())?;
            prepare_with(alloc, s, line, on_super, callee, &parameters, arguments)
        }
        Callee::Body(class) => {
            let parameters = block_parameters(alloc, s, class)?;
            prepare_with(alloc, s, line, on_super, callee, &parameters, arguments)
        }
        Callee::Nothing => prepare_with(alloc, s, line, on_super, callee, &[], arguments),
        Callee::NotCallable => prepare_with(alloc, s, line, on_super, callee, &[], arguments),
        Callee::BaseBody(_) => prepare_with(alloc, s, line, on_super, callee, &[], arguments),
        Callee::NoBaseBody => prepare_with(alloc, s, line, on_super, callee, &[], arguments),
    }
}

/// What a call calls, and its arguments matched with the parameters.
pub fn prepare(
    alloc: Global,
    s: &Scope<'_>,
    line: u32,
    root: &Root<u32>,
    selectors: &[Selector<u32>],
    arguments: &[Argument<u32>],
) -> Result<Prepared, NoMemory>
    ensures { IfOk result (λ x. IsPrepared x s.now line (calls.is_on_super root.now (selectors_of selectors.now)) (calls.callee s.now root.now (selectors_of selectors.now)) (calls.heads (arguments_of arguments.now))) }
{
    let callee = callee_at(s, root, selectors);
    let on_super = is_on_super(root, selectors);
    prepare_for(alloc, s, line, on_super, callee, arguments)
}

/// A call, from what is found out about its parts.
#[tactic(auto, using(crate::proofs::Views::call_view))]
pub fn finish(
    alloc: Global,
    s: &Scope<'_>,
    line: u32,
    root: &Root<u32>,
    selectors: &[Selector<u32>],
    call: Prepared,
    place: CheckedPlace,
    arguments: Arguments,
) -> Result<Checked, NoMemory>
    ensures { IfOk result (λ c. Finishes c s.now line root.now (selectors_of selectors.now) call place arguments) }
{
    let note = noted(alloc, line, &call.told)?;
    let of_selectors = selectors_fault(s, root_line(root), selectors);
    let of_place = earlier(place.least, of_selectors);
    let of_parts = earlier(earlier(of_place, call.least), arguments.least);
    Ok(Checked {
        told: call.told,
        least: earlier(of_parts, call.of_result),
        tree: Expr::Call(note, place.into_place(), arguments.arguments),
    })
}
