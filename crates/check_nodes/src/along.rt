//! The selectors of a place, one after the other.

ghost use Rattle.std.specs.Prelude.{◌≡◌, ◌<◌, ◌+◌, length, drop, IfOk};
ghost use Rattle.st_tree.specs.Expression.{selectors_of};
ghost use Rattle.st_rules.specs.Scope.{Scope as AScope};
ghost use Rattle.st_rules.specs.Places as places;
ghost use Rattle.check_places.specs.Standing.{standing};
ghost use Rattle.check_nodes.specs.Along.{Starts, Extends, IsField, IsIndex, IsTarget};

use crate::lists::Indices;
use check_places::{Standing, part_note, standing_note};
use name_resolution::Scope;
use plc_text::{Code, Items, NoMemory, Text};
use st_rules::earlier;
use st_tree::{Note, Selector};
use std::alloc::Global;

/// What stands behind the selectors so far, the least rule that they break, and their typed trees.
#[derive(Drop)]
pub struct Along<'a> {
    pub standing: Standing<'a>,
    pub least: Option<(Code, u32)>,
    pub selectors: Items<Selector<Note>>,
}

/// One selector: the least rule that it breaks, and its typed tree.
#[derive(Drop)]
pub struct CheckedSelector {
    pub least: Option<(Code, u32)>,
    pub selector: Selector<Note>,
}

/// What a place begins with, before its selectors.
pub fn started<'a>(alloc: Global, b: Standing<'a>) -> Along<'a>
    ensures { Starts result b.entry }
{
    Along {
        standing: b,
        least: None,
        selectors: Items::new(alloc),
    }
}

/// Whether the selector of this number is the last one.
pub fn is_last_at(selectors: &[Selector<u32>], number: usize) -> bool
    requires { number < length selectors.now }
    ensures { result ≡ places.is_last (selectors_of (drop (number + 1) selectors.now)) }
{
    number + 1 == selectors.len()
}

/// The selectors with one more, behind which this stands.
pub fn extended<'a>(
    so_far: Along<'a>,
    next: Standing<'a>,
    one: CheckedSelector,
) -> Result<Along<'a>, NoMemory>
    ensures { IfOk result (λ x. Extends x so_far.entry next.entry one) }
{
    let Along {
        standing: _,
        least,
        mut selectors,
    } = so_far;
    selectors.push(one.selector)?;
    Ok(Along {
        standing: next,
        least: earlier(least, one.least),
        selectors,
    })
}

/// `.name` behind what stands there, with the least of its own rules.
#[tactic(auto, using(crate::proofs::Views::field_view))]
pub fn noted_field(
    alloc: Global,
    s: &Scope<'_>,
    called: bool,
    b: Standing<'_>,
    own: Option<(Code, u32)>,
    line: u32,
    name: &Text,
) -> Result<CheckedSelector, NoMemory>
    ensures { IfOk result (λ x. IsField x s.now called (standing b.entry) own line name.now) }
{
    let note = part_note(alloc, s, called, b, line, name)?;
    let name = Text::copy(alloc, name.as_str())?;
    Ok(CheckedSelector {
        least: own,
        selector: Selector::Field(note, name),
    })
}

/// Indices behind which this stands, with the least of the selector's own rules.
#[tactic(auto, using(crate::proofs::Views::index_view))]
pub fn noted_index(
    alloc: Global,
    next: Standing<'_>,
    own: Option<(Code, u32)>,
    line: u32,
    indices: Indices,
) -> Result<CheckedSelector, NoMemory>
    ensures { (s : AScope) → IfOk result (λ x. IsIndex x s (standing next.entry) own line indices) }
{
    let note = standing_note(alloc, line, next)?;
    Ok(CheckedSelector {
        least: earlier(own, indices.least),
        selector: Selector::Index(note, indices.expressions),
    })
}

/// `^` behind which this stands, with the least of its own rules.
#[tactic(auto, using(crate::proofs::Views::target_view))]
pub fn noted_target(
    alloc: Global,
    next: Standing<'_>,
    own: Option<(Code, u32)>,
    line: u32,
) -> Result<CheckedSelector, NoMemory>
    ensures { (s : AScope) → IfOk result (λ x. IsTarget x s (standing next.entry) own line) }
{
    let note = standing_note(alloc, line, next)?;
    Ok(CheckedSelector {
        least: own,
        selector: Selector::Target(note),
    })
}
