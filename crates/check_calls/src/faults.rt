//! The rules of a call, but those of its place and its arguments themselves.

ghost use Rattle.std.specs.Prelude.{◌≡◌, ℕ, [], ◌||◌, if◌then◌else◌, List, IfOk, OnOk};
ghost use Rattle.std.specs.Option.{is_none};
ghost use Rattle.plc_text.specs.declared.code.Code.TheVariants.{E09};
ghost use Rattle.std.specs.List.{list_any};
ghost use Rattle.st_rules.specs.Faults.{least, when};
ghost use Rattle.st_rules.specs.Scope.{Scope as AScope};
ghost use Rattle.st_rules.specs.Calls as calls;
ghost use Rattle.check_calls.specs.Callee.{called};
ghost use Rattle.check_calls.specs.Heads.{head, heads_told};
ghost use Rattle.check_calls.specs.Parameters.{parameters_of};
ghost use Rattle.check_calls.specs.Private.Names.{is_in, is_left_out_of};
ghost use Rattle.check_calls.specs.Private.Matching as own;
ghost use Rattle.check_calls.specs.Private.Faults.{own_callee_faults};
ghost use Rattle.check_calls.specs.Private.Seen.{OneName, OneHead};

use crate::callee::Callee;
use crate::heads::{Head, any_named, any_unnamed};
use crate::matching::{Way, given_of, has_right_number, parameter_named};
use crate::names::{NameSet, add, has};
use crate::parameters::block_parameters;
use name_resolution::Scope;
use plc_text::{Code, NoMemory, Text};
use st_rules::{DeclaredVariable, ResultType, at, copied, earlier, when};
use st_tree::SectionSort;
use st_types::StType;
use std::alloc::Global;
use std::collections::HashMap;

/// A positional argument beside one with a name.
fn mixed_fault(line: u32, heads: &[Head<'_>]) -> Option<(Code, u32)>
    ensures { result ≡ least (calls.positional_and_named_mixed line (heads_told heads.now)) }
{
    when(any_unnamed(heads) && any_named(heads), Code::E09, line)
}

/// A wrong number of positional arguments.
fn number_fault(
    alloc: Global,
    line: u32,
    parameters: &[&DeclaredVariable],
    heads: &[Head<'_>],
) -> Result<Option<(Code, u32)>, NoMemory>
    ensures { IfOk result (λ f. f ≡ least (calls.wrong_number_of_positional line (parameters_of parameters.now) (heads_told heads.now))) }
{
    let given = given_of(alloc, parameters)?;
    Ok(when(
        any_unnamed(heads) && !has_right_number(&given, heads),
        Code::E09,
        line,
    ))
}

/// The name of an argument that gives a value.
fn add_input(alloc: Global, names: &mut NameSet, h: Head<'_>) -> Result<(), NoMemory>
    ensures { OnOk result ((q : List ℕ) → is_in names.new q ≡ (calls.gives_input q (head h.entry) || is_in names.old q)) }
{
    match h {
        Head::Input(_, name) => add(alloc, names, name),
        Head::Unnamed => Ok(()),
        Head::Output(_, _) => Ok(()),
    }
}

/// The names of the arguments that give a value.
fn input_names(alloc: Global, heads: &[Head<'_>]) -> Result<NameSet, NoMemory>
    ensures { IfOk result (λ names. (q : List ℕ) → is_in names q ≡ list_any (calls.gives_input q) (heads_told heads.now)) }
{
    let mut names: NameSet = HashMap::new(alloc);
    let mut i = heads.len();
    'heads: while i > 0 {
        i -= 1;
        add_input(alloc, &mut names, heads[i])?;
    }
    Ok(names)
}

fn is_left_out(inputs: &NameSet, v: &DeclaredVariable) -> bool
    ensures { result ≡ is_left_out_of inputs.now v.now }
{
    is_in_out_sort(v.sort) && !has(inputs, &v.name)
}

fn is_in_out_sort(sort: SectionSort) -> bool
    ensures { result ≡ calls.is_in_out_sort sort }
{
    matches!(sort, SectionSort::InOut)
}

fn any_left_out(inputs: &NameSet, parameters: &[&DeclaredVariable]) -> bool
    ensures { result ≡ list_any (is_left_out_of inputs.now) (parameters_of parameters.now) }
{
    for parameter in parameters {
        if is_left_out(inputs, parameter) {
            return true;
        }
    }
    false
}

/// Whether an in-out is not among the arguments that give a value.
fn leaves_one_out(
    alloc: Global,
    parameters: &[&DeclaredVariable],
    heads: &[Head<'_>],
) -> Result<bool, NoMemory>
    ensures { IfOk result (λ b. b ≡ list_any (calls.is_left_out (heads_told heads.now)) (parameters_of parameters.now)) }
{
    let inputs = input_names(alloc, heads)?;
    let missing = any_left_out(&inputs, parameters);
    Ok(missing)
}

/// An in-out that is left out.
fn left_out_fault(
    alloc: Global,
    line: u32,
    parameters: &[&DeclaredVariable],
    heads: &[Head<'_>],
) -> Result<Option<(Code, u32)>, NoMemory>
    ensures { IfOk result (λ f. f ≡ least (calls.in_out_left_out line (parameters_of parameters.now) (heads_told heads.now))) }
{
    let missing = leaves_one_out(alloc, parameters, heads)?;
    Ok(when(!any_unnamed(heads) && missing, Code::E09, line))
}

fn is_unknown_or_repeated(
    seen: &NameSet,
    parameters: &[&DeclaredVariable],
    way: Way,
    name: &Text,
) -> bool
    ensures { (earlier : List (List ℕ)) → ((q : List ℕ) → is_in seen.now q ≡ calls.names_among q earlier)
        → result ≡ (is_none (calls.parameter_from (own.passes way) 0 name.now (parameters_of parameters.now)) || calls.names_among name.now earlier) }
{
    parameter_named(parameters, way, name).is_none() || has(seen, name)
}

/// A name that is unknown or stood before, which is then one of those seen.
fn one_name(
    alloc: Global,
    seen: &mut NameSet,
    parameters: &[&DeclaredVariable],
    way: Way,
    line: u32,
    name: &Text,
) -> Result<Option<(Code, u32)>, NoMemory>
    ensures { (earlier : List (List ℕ)) → ((q : List ℕ) → is_in seen.old q ≡ calls.names_among q earlier)
        → IfOk result (λ f. OneName seen.new earlier name.now f (least (when (is_none (calls.parameter_from (own.passes way) 0 name.now (parameters_of parameters.now)) || calls.names_among name.now earlier) E09 line))) }
{
    let bad = is_unknown_or_repeated(seen, parameters, way, name);
    add(alloc, seen, name)?;
    Ok(when(bad, Code::E09, line))
}

fn one_argument(
    alloc: Global,
    seen: &mut NameSet,
    parameters: &[&DeclaredVariable],
    h: Head<'_>,
) -> Result<Option<(Code, u32)>, NoMemory>
    ensures { (earlier : List (List ℕ)) → ((q : List ℕ) → is_in seen.old q ≡ calls.names_among q earlier)
        → IfOk result (λ f. OneHead seen.new earlier (head h.entry) f (parameters_of parameters.now)) }
{
    match h {
        Head::Unnamed => Ok(None),
        Head::Input(line, name) => {
            let given = one_name(alloc, seen, parameters, Way::Given, line, name)?;
            Ok(given)
        }
        Head::Output(line, name) => {
            let taken = one_name(alloc, seen, parameters, Way::Taken, line, name)?;
            Ok(taken)
        }
    }
}

/// Names that are unknown or stand twice.
fn named_fault(
    alloc: Global,
    parameters: &[&DeclaredVariable],
    heads: &[Head<'_>],
) -> Result<Option<(Code, u32)>, NoMemory>
    ensures { IfOk result (λ f. f ≡ least (calls.named_unknown_or_twice (parameters_of parameters.now) [] (heads_told heads.now))) }
{
    let mut seen: NameSet = HashMap::new(alloc);
    let mut found = None;
    for h in heads {
        let fault = one_argument(alloc, &mut seen, parameters, *h)?;
        found = earlier(found, fault);
    }
    Ok(found)
}

/// Arguments that do not match the parameters.
#[tactic(auto, using(st_rules::proofs::FaultLaws::faults))]
fn matching_fault(
    alloc: Global,
    line: u32,
    parameters: &[&DeclaredVariable],
    heads: &[Head<'_>],
) -> Result<Option<(Code, u32)>, NoMemory>
    ensures { IfOk result (λ f. f ≡ least (calls.matching_faults line (parameters_of parameters.now) (heads_told heads.now))) }
{
    let mixed = mixed_fault(line, heads);
    let number = number_fault(alloc, line, parameters, heads)?;
    let named = named_fault(alloc, parameters, heads)?;
    let left_out = left_out_fault(alloc, line, parameters, heads)?;
    Ok(earlier(earlier(earlier(mixed, number), named), left_out))
}

fn any_in_out(parameters: &[&DeclaredVariable]) -> bool
    ensures { result ≡ list_any (λ v. calls.is_in_out_sort v.sort) (parameters_of parameters.now) }
{
    for parameter in parameters {
        if is_in_out_sort(parameter.sort) {
            return true;
        }
    }
    false
}

/// SUPER() in a method of a class whose base has in-outs.
fn super_fault(
    alloc: Global,
    s: &Scope<'_>,
    line: u32,
    c: Callee<'_>,
) -> Result<Option<(Code, u32)>, NoMemory>
    ensures { IfOk result (λ f. f ≡ least (calls.super_call_in_a_method s.now line (called c.entry))) }
{
    match c {
        Callee::BaseBody(base) => {
            let in_outs = has_in_outs(alloc, s, base)?;
            Ok(when(s.in_method() && in_outs, Code::E10, line))
        }
        _ => Ok(None),
    }
}

fn has_in_outs(alloc: Global, s: &Scope<'_>, class: u32) -> Result<bool, NoMemory>
    ensures { IfOk result (λ b. b ≡ calls.has_in_outs s.now class) }
{
    let parameters = block_parameters(alloc, s, class)?;
    Ok(any_in_out(&parameters))
}

/// What is called that is nothing to be called, a body that is not there, arguments or an abstract method where there may be none, and
/// a conversion without its operand.
fn own_fault(line: u32, on_super: bool, c: Callee<'_>, heads: &[Head<'_>]) -> Option<(Code, u32)>
    ensures { (s : AScope) → result ≡ least (own_callee_faults s line on_super (called c.entry) (heads_told heads.now)) }
{
    match c {
        Callee::NotCallable => at(Code::E09, line),
        Callee::NoBaseBody => at(Code::E07, line),
        Callee::BaseBody(_) => when(!heads.is_empty(), Code::E09, line),
        Callee::Routine(r) => when(on_super && r.abstract_method, Code::E09, line),
        Callee::Conversion(_, _) => when(heads.is_empty(), Code::E09, line),
        Callee::Body(_) => None,
        Callee::Nothing => None,
    }
}

fn has_parameters(c: Callee<'_>) -> bool
    ensures { (s : AScope) → result ≡ calls.has_parameters s (called c.entry) }
{
    match c {
        Callee::Conversion(_, _) => true,
        Callee::Routine(_) => true,
        Callee::Body(_) => true,
        Callee::Nothing => false,
        Callee::NotCallable => false,
        Callee::BaseBody(_) => false,
        Callee::NoBaseBody => false,
    }
}

fn arguments_fault(
    alloc: Global,
    line: u32,
    c: Callee<'_>,
    parameters: &[&DeclaredVariable],
    heads: &[Head<'_>],
) -> Result<Option<(Code, u32)>, NoMemory>
    ensures { (s : AScope) → IfOk result (λ f. f ≡ least (if calls.has_parameters s (called c.entry) then calls.matching_faults line (parameters_of parameters.now) (heads_told heads.now) else [])) }
{
    if has_parameters(c) {
        let fault = matching_fault(alloc, line, parameters, heads)?;
        Ok(fault)
    } else {
        Ok(None)
    }
}

/// The rules of what is called and of how its arguments are written; these are its parameters.
pub fn callee_fault(
    alloc: Global,
    s: &Scope<'_>,
    line: u32,
    on_super: bool,
    c: Callee<'_>,
    parameters: &[&DeclaredVariable],
    heads: &[Head<'_>],
) -> Result<Option<(Code, u32)>, NoMemory>
    requires { parameters_of parameters.now ≡ calls.callee_parameters s.now (called c) }
    ensures { IfOk result (λ f. f ≡ least (calls.callee_faults s.now line on_super (called c.entry) (heads_told heads.now))) }
{
    let own = own_fault(line, on_super, c, heads);
    let in_method = super_fault(alloc, s, line, c)?;
    let arguments = arguments_fault(alloc, line, c, parameters, heads)?;
    let of_callee = earlier(own, in_method);
    let whole = earlier(of_callee, arguments);
    Ok(whole)
}

fn outcome_type(alloc: Global, outcome: &ResultType) -> Result<Option<StType>, NoMemory>
    ensures { IfOk result (λ t. t ≡ calls.outcome_type outcome.now) }
{
    match outcome {
        ResultType::Written(t) => copied(alloc, t),
        ResultType::Nothing => Ok(None),
    }
}

/// The type of a call; nothing where it cannot be told.
#[tactic(auto, unfolding(st_rules::specs::Calls::call_type))]
pub fn call_type(alloc: Global, c: Callee<'_>) -> Result<Option<StType>, NoMemory>
    ensures { IfOk result (λ t. t ≡ calls.call_type (called c.entry)) }
{
    match c {
        Callee::Conversion(_, to) => Ok(Some(StType::Elementary(to))),
        Callee::Routine(r) => outcome_type(alloc, &r.outcome),
        Callee::Nothing => Ok(None),
        Callee::NotCallable => Ok(None),
        Callee::Body(_) => Ok(None),
        Callee::BaseBody(_) => Ok(None),
        Callee::NoBaseBody => Ok(None),
    }
}

fn has_no_outcome(outcome: &ResultType) -> bool
    ensures { result ≡ calls.has_no_outcome outcome.now }
{
    match outcome {
        ResultType::Nothing => true,
        ResultType::Written(_) => false,
    }
}

fn has_no_value(c: Callee<'_>) -> bool
    ensures { result ≡ calls.has_no_value (called c.entry) }
{
    match c {
        Callee::Routine(r) => has_no_outcome(&r.outcome),
        Callee::Body(_) => true,
        Callee::BaseBody(_) => true,
        Callee::Nothing => false,
        Callee::NotCallable => false,
        Callee::Conversion(_, _) => false,
        Callee::NoBaseBody => false,
    }
}

/// A call that gives no value where one is wanted.
#[tactic(auto, unfolding(st_rules::specs::Calls::call_without_result))]
pub fn result_fault(line: u32, c: Callee<'_>) -> Option<(Code, u32)>
    ensures { result ≡ least (calls.call_without_result line (called c.entry)) }
{
    when(has_no_value(c), Code::E07, line)
}
