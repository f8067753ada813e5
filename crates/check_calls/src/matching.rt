//! Which parameter each argument is for.

ghost use Rattle.std.specs.Prelude.{◌≡◌, ◌∷◌, List, drop, IfOk};
ghost use Rattle.st_rules.specs.Calls as calls;
ghost use Rattle.st_rules.specs.Calls.{Head as AHead};
ghost use Rattle.st_rules.specs.declared.names.DeclaredVariable.{DeclaredVariable as Variable};
ghost use Rattle.st_rules.specs.Places as places;
ghost use Rattle.check_calls.specs.Heads.{head, heads_told};
ghost use Rattle.check_calls.specs.Parameters.{parameters_of};
ghost use Rattle.check_calls.specs.Matching.{matched_of, matched_all, numbered_all};
ghost use Rattle.check_calls.specs.Private.Matching as own;

use crate::heads::{Head, count_unnamed};
use plc_text::{NoMemory, Text};
use st_rules::DeclaredVariable;
use st_tree::SectionSort;
use std::alloc::Global;

/// A parameter with its number among the parameters.
#[derive(Clone, Copy)]
pub struct Matched<'a> {
    pub number: usize,
    pub parameter: &'a DeclaredVariable,
}

/// Which parameters count.
#[derive(Clone, Copy, Debug, PartialEq, Eq)]
pub enum Way {
    /// Inputs and in-outs.
    Given,
    /// Outputs.
    Taken,
}

fn is_output_sort(sort: SectionSort) -> bool
    ensures { result ≡ places.is_output_sort sort }
{
    matches!(sort, SectionSort::Output)
}

fn passes(way: Way, v: &DeclaredVariable) -> bool
    ensures { result ≡ own.passes way v.now }
{
    match way {
        Way::Given => !is_output_sort(v.sort),
        Way::Taken => is_output_sort(v.sort),
    }
}

/// The first parameter of the name that counts.
pub fn parameter_named<'a>(
    parameters: &[&'a DeclaredVariable],
    way: Way,
    name: &Text,
) -> Option<Matched<'a>>
    ensures { matched_of result ≡ calls.parameter_from (own.passes way) 0 name.now (parameters_of parameters.now) }
{
    for (number, parameter) in parameters.iter().enumerate() {
        if passes(way, parameter) && parameter.name == *name {
            return Some(Matched { number, parameter });
        }
    }
    None
}

/// The parameters that positional arguments are for, in order.
pub fn given_of<'a>(
    alloc: Global,
    parameters: &[&'a DeclaredVariable],
) -> Result<Vec<Matched<'a>>, NoMemory>
    ensures { IfOk result (λ list. numbered_all list.items ≡ calls.given_from 0 (parameters_of parameters.now)) }
{
    let mut list = Vec::new(alloc);
    for (number, parameter) in parameters.iter().enumerate() {
        if passes(Way::Given, parameter) {
            list.push(Matched { number, parameter })?;
        }
    }
    Ok(list)
}

/// Whether there are as many positional arguments as parameters for them.
pub fn has_right_number(given: &[Matched<'_>], heads: &[Head<'_>]) -> bool
    ensures { (ps : List Variable) → numbered_all given.now ≡ calls.given_from 0 ps → result ≡ calls.has_right_number ps (heads_told heads.now) }
{
    count_unnamed(heads) == given.len()
}

/// What one argument is for, and how many of the positional parameters stand before the next.
#[derive(Clone, Copy)]
struct One<'a> {
    matched: Option<Matched<'a>>,
    next: usize,
}

fn one_match<'a>(
    parameters: &[&'a DeclaredVariable],
    given: &[Matched<'a>],
    next: usize,
    h: Head<'_>,
) -> One<'a>
    ensures { (hs : List AHead) → calls.matched (parameters_of parameters.now) (numbered_all (drop next given.now)) (head h.entry ∷ hs)
        ≡ matched_of result.matched ∷ calls.matched (parameters_of parameters.now) (numbered_all (drop result.next given.now)) hs }
{
    match h {
        Head::Unnamed => match given.get(next) {
            Some(matched) => One {
                matched: Some(*matched),
                next: next + 1,
            },
            None => One {
                matched: None,
                next,
            },
        },
        Head::Input(_, name) => One {
            matched: parameter_named(parameters, Way::Given, name),
            next,
        },
        Head::Output(_, name) => One {
            matched: parameter_named(parameters, Way::Taken, name),
            next,
        },
    }
}

fn matches_of<'a>(
    alloc: Global,
    parameters: &[&'a DeclaredVariable],
    given: &[Matched<'a>],
    heads: &[Head<'_>],
) -> Result<Vec<Option<Matched<'a>>>, NoMemory>
    ensures { IfOk result (λ list. matched_all list.items ≡ calls.matched (parameters_of parameters.now) (numbered_all given.now) (heads_told heads.now)) }
{
    let mut list = Vec::new(alloc);
    let mut next = 0;
    for h in heads {
        let one = one_match(parameters, given, next, *h);
        list.push(one.matched)?;
        next = one.next;
    }
    Ok(list)
}

/// Which parameter each argument is for, where all are given.
pub fn matches<'a>(
    alloc: Global,
    parameters: &[&'a DeclaredVariable],
    heads: &[Head<'_>],
) -> Result<Vec<Option<Matched<'a>>>, NoMemory>
    ensures { IfOk result (λ list. matched_all list.items ≡ calls.matches (parameters_of parameters.now) (heads_told heads.now)) }
{
    let given = given_of(alloc, parameters)?;
    if has_right_number(&given, heads) {
        let list = matches_of(alloc, parameters, &given, heads)?;
        Ok(list)
    } else {
        let list = matches_of(alloc, parameters, &[], heads)?;
        Ok(list)
    }
}
