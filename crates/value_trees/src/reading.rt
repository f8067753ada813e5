//! What stands in a value behind steps.

ghost use Rattle.std.specs.Prelude.{◌≡◌, ◌≤◌, ℕ, Some, MatchOption, option_map};
ghost use Rattle.st_values.specs.Value as plain;
ghost use Rattle.value_trees.specs.Value.{value_of, values_of, members_of};

use crate::value::{Member, Value};
use plc_text::Series;
use st_tree::Step;

/// Which element of so many has this index, where the least one is `low`.
pub fn place_of_index(low: &i128, index: &i128, count: usize) -> Option<usize>
    ensures { MatchOption result ((k : ℕ) → plain.place_of_index low.now index.now ≡ Some k → count ≤ k) (λ k. plain.place_of_index low.now index.now ≡ Some k) }
{
    if *index < *low {
        return None;
    }
    let Some(offset) = index.checked_sub(*low) else {
        return None;
    };
    if offset >= count as i128 {
        return None;
    }
    Some(offset as usize)
}

fn element_at<'a>(items: &'a Series<Value>, low: &i128, index: &i128) -> Option<&'a Value>
    ensures { option_map (λ w. value_of w.now) result ≡ plain.part (plain.array low.now (values_of items.now)) (Step.Element index.now) }
{
    match place_of_index(low, index, items.len()) {
        Some(place) => items.get(place),
        None => None,
    }
}

fn member_at(members: &Series<Member>, k: u32) -> Option<&Value>
    ensures { option_map (λ w. value_of w.now) result ≡ plain.member (members_of members.now) k }
{
    match members.get(k as usize) {
        Some(member) => Some(&member.value),
        None => None,
    }
}

/// The part of a value to which a step leads.
#[tactic(auto, using(crate::specs::Value::value_views))]
fn part<'a>(v: &'a Value, step: &Step) -> Option<&'a Value>
    ensures { option_map (λ w. value_of w.now) result ≡ plain.part (value_of v.now) step.now }
{
    match v {
        Value::Array(low, items) => match step {
            Step::Element(index) => element_at(items, low, index),
            Step::Field(_) => None,
        },
        Value::Structure(_, members) => match step {
            Step::Field(k) => member_at(members, *k),
            Step::Element(_) => None,
        },
        Value::Instance(_, members) => match step {
            Step::Field(k) => member_at(members, *k),
            Step::Element(_) => None,
        },
        Value::Number(_) => None,
        Value::Reference(_) => None,
    }
}

/// What stands in a value behind these steps; None where they do not lead through it.
pub fn value_at<'a>(v: &'a Value, steps: &[Step]) -> Option<&'a Value>
    ensures { option_map (λ w. value_of w.now) result ≡ plain.value_at (value_of v.now) steps.now }
{
    match steps {
        [] => Some(v),
        [step, rest @ ..] => match part(v, step) {
            Some(inner) => value_at(inner, rest),
            None => None,
        },
    }
}
