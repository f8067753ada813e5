//! Upward from a class to its bases, by so many steps at most.

ghost use Rattle.std.specs.Prelude.{◌≡◌, ◌+◌, ℕ, nat_eq, length, Some, None, MatchOption, slice_get};
ghost use Rattle.std.specs.List.{list_any};
ghost use Rattle.graph_reach.specs.Reach.{reaches};
ghost use Rattle.program_tables.specs.Private.Climb as climb;
ghost use Rattle.st_rules.specs.Upward.{upward, base_in};
ghost use Rattle.program_tables.specs.Private.Climb.{any_upward};

use crate::places::{Places, place_of};
use crate::routine::RoutineId;
use graph_reach::Row;
use plc_text::{Items, Text};

/// The number of the base, where a class has one that is found.
pub fn base_of(bases: &[Option<u32>], class: u32) -> Option<u32>
    ensures { result ≡ base_in bases.now class }
{
    match bases.get(class as usize) {
        Some(base) => *base,
        None => None,
    }
}

fn table_of(tables: &[Places], class: u32) -> Option<&Places>
    ensures { MatchOption result (slice_get tables.now class ≡ None) (λ t. slice_get tables.now class ≡ Some t.now) }
{
    tables.get(class as usize)
}

/// The method of the name that a class declares itself.
fn own_method(methods: &[Places], class: u32, name: &Text) -> Option<RoutineId>
    ensures { result ≡ climb.own_method methods.now name.now class }
{
    let table = table_of(methods, class)?;
    let place = place_of(table, name)?;
    Some(RoutineId::Method(class, place))
}

/// The nearest method of the name, from a class upward.
#[tactic(auto, using(st_rules::proofs::UpwardLaws::upward_next))]
pub fn nearest_method(
    bases: &[Option<u32>],
    methods: &[Places],
    class: u32,
    name: &Text,
) -> Option<RoutineId>
    ensures { result ≡ upward (climb.own_method methods.now name.now) (base_in bases.now) (length bases.now + 1) class }
{
    let mut at = class;
    let mut left = bases.len() + 1;
    'classes: while left > 0 {
        left -= 1;
        if let Some(found) = own_method(methods, at, name) {
            return Some(found);
        }
        match base_of(bases, at) {
            Some(base) => at = base,
            None => return None,
        }
    }
    None
}

/// Whether a class is another one or is derived from it.
#[tactic(auto, using(crate::proofs::ClimbLaws::any_upward_next))]
pub fn is_derived(bases: &[Option<u32>], class: u32, other: u32) -> bool
    ensures { result ≡ any_upward (nat_eq other) (base_in bases.now) (length bases.now + 1) class }
{
    let mut at = class;
    let mut left = bases.len() + 1;
    'classes: while left > 0 {
        left -= 1;
        if other == at {
            return true;
        }
        match base_of(bases, at) {
            Some(base) => at = base,
            None => return false,
        }
    }
    false
}

pub fn leads(reach: &[Row], node: u32, other: u32) -> bool
    ensures { result ≡ reaches reach.now node other }
{
    match reach.get(node as usize) {
        Some(row) => row.has(other as usize),
        None => false,
    }
}

fn one_leads(reach: &[Row], nodes: &[u32], other: u32) -> bool
    ensures { result ≡ list_any (λ node. reaches reach.now node other) nodes.now }
{
    nodes.iter().any(|node| leads(reach, *node, other))
}

/// Whether a class itself implements the interface, or one that extends it.
fn implements_itself(implemented: &[Items<u32>], reach: &[Row], class: u32, interface: u32) -> bool
    ensures { result ≡ climb.implements_itself implemented.now reach.now interface class }
{
    match implemented.get(class as usize) {
        Some(interfaces) => one_leads(reach, interfaces.as_slice(), interface),
        None => false,
    }
}

/// Whether a class or one above it implements the interface, or one that extends it.
#[tactic(auto, using(crate::proofs::ClimbLaws::any_upward_next))]
pub fn implements(
    bases: &[Option<u32>],
    implemented: &[Items<u32>],
    reach: &[Row],
    class: u32,
    interface: u32,
) -> bool
    ensures { result ≡ any_upward (climb.implements_itself implemented.now reach.now interface) (base_in bases.now) (length bases.now + 1) class }
{
    let mut at = class;
    let mut left = bases.len() + 1;
    'classes: while left > 0 {
        left -= 1;
        if implements_itself(implemented, reach, at, interface) {
            return true;
        }
        match base_of(bases, at) {
            Some(base) => at = base,
            None => return false,
        }
    }
    false
}
