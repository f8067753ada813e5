//! A value is put in another's place, and the other comes back.

ghost use Rattle.std.specs.Prelude.{◌≡◌, ◌∷◌, option_map};
ghost use Rattle.st_values.specs.Value as plain;
ghost use Rattle.value_trees.specs.Value.{value_of, values_of, members_of};
ghost use Rattle.value_trees.specs.Exchange.{Exchanged};
ghost use Rattle.value_trees.specs.Private.Parts.{ElementExchanged, MemberExchanged};

use crate::reading::place_of_index;
use crate::value::{Member, Value};
use plc_text::Series;
use st_tree::Step;
use std::mem;

/// Puts a value where these steps lead, and gives back what stood there. Where they lead nowhere, the value itself comes back, and
/// nothing changes.
#[cycle(exchange)]
#[tactic(auto, using(crate::specs::Value::value_views))]
pub fn exchange_at(v: &mut Value, steps: &[Step], new: Value) -> Result<Value, Value>
    ensures { Exchanged result (value_of v.old) steps.now (value_of new) (value_of v.new) }
{
    match steps {
        [] => Ok(mem::replace(v, new)),
        [step, rest @ ..] => match step {
            Step::Element(index) => exchange_in_array(v, index, rest, new),
            Step::Field(k) => exchange_in_members(v, *k, rest, new),
        },
    }
}

/// Puts a value in the place of one that was only held there.
fn put_back(v: &mut Value, value: Value)
    ensures { v.new ≡ value }
{
    *v = value;
}

#[cycle(exchange)]
#[tactic(auto, using(crate::specs::Value::value_views))]
fn exchange_in_array(v: &mut Value, index: &i128, rest: &[Step], new: Value) -> Result<Value, Value>
    ensures { Exchanged result (value_of v.old) (Step.Element index.now ∷ rest.now) (value_of new) (value_of v.new) }
{
    match mem::replace(v, Value::Number(0)) {
        Value::Array(low, mut items) => {
            let answer = exchange_element(&mut items, &low, index, rest, new);
            put_back(v, Value::Array(low, items));
            answer
        }
        Value::Structure(name, members) => {
            put_back(v, Value::Structure(name, members));
            Err(new)
        }
        Value::Instance(name, members) => {
            put_back(v, Value::Instance(name, members));
            Err(new)
        }
        Value::Number(n) => {
            put_back(v, Value::Number(n));
            Err(new)
        }
        Value::Reference(target) => {
            put_back(v, Value::Reference(target));
            Err(new)
        }
    }
}

#[cycle(exchange)]
#[tactic(auto, using(crate::specs::Value::value_views))]
fn exchange_in_members(v: &mut Value, k: u32, rest: &[Step], new: Value) -> Result<Value, Value>
    ensures { Exchanged result (value_of v.old) (Step.Field k ∷ rest.now) (value_of new) (value_of v.new) }
{
    match mem::replace(v, Value::Number(0)) {
        Value::Structure(name, mut members) => {
            let answer = exchange_member(&mut members, k, rest, new);
            put_back(v, Value::Structure(name, members));
            answer
        }
        Value::Instance(name, mut members) => {
            let answer = exchange_member(&mut members, k, rest, new);
            put_back(v, Value::Instance(name, members));
            answer
        }
        Value::Array(low, items) => {
            put_back(v, Value::Array(low, items));
            Err(new)
        }
        Value::Number(n) => {
            put_back(v, Value::Number(n));
            Err(new)
        }
        Value::Reference(target) => {
            put_back(v, Value::Reference(target));
            Err(new)
        }
    }
}

#[cycle(exchange)]
fn exchange_element(
    items: &mut Series<Value>,
    low: &i128,
    index: &i128,
    rest: &[Step],
    new: Value,
) -> Result<Value, Value>
    ensures { ElementExchanged result low.now (values_of items.old) index.now rest.now (value_of new) (values_of items.new) }
{
    match place_of_index(low, index, items.len()) {
        Some(place) => match items.get_mut(place) {
            Some(inner) => exchange_at(inner, rest, new),
            None => Err(new),
        },
        None => Err(new),
    }
}

#[cycle(exchange)]
fn exchange_member(
    members: &mut Series<Member>,
    k: u32,
    rest: &[Step],
    new: Value,
) -> Result<Value, Value>
    ensures { MemberExchanged result (members_of members.old) k rest.now (value_of new) (members_of members.new) }
{
    match members.get_mut(k as usize) {
        Some(member) => exchange_at(&mut member.value, rest, new),
        None => Err(new),
    }
}
