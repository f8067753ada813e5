//! What is no target: E08.

ghost use Rattle.std.specs.Prelude.{◌≡◌, ℕ, ◌||◌, false};
ghost use Rattle.st_tree.specs.Expression.{Selectors, selector_then, selector_of, selectors_of};
ghost use Rattle.st_rules.specs.Faults.{least};
ghost use Rattle.st_rules.specs.Scope.{Scope as AScope, sought, dot_qualifier};
ghost use Rattle.st_rules.specs.Places as places;
ghost use Rattle.name_resolution.specs.Meant.{meant, qualifier};
ghost use Rattle.check_places.specs.Standing.{standing, parted};
ghost use Rattle.check_places.specs.Private.Assignability.{within};

use crate::parts::part_of;
use crate::places::{begins_with_field, placed, root_standing, selected};
use crate::roots::root_line;
use crate::standing::{Part, Standing, holds};
use name_resolution::{Meant, Qualifier, Scope};
use plc_text::{Code, Text};
use st_rules::{earlier, when};
use st_tree::{Root, SectionSort, Selector};

fn is_no_variable(m: Option<Meant<'_>>) -> bool
    ensures { (s : AScope) → result ≡ places.is_no_variable s (meant m.entry) }
{
    match m {
        Some(Meant::Variable(_, v)) => v.constant || v.located_input,
        Some(Meant::Enumerator(_, _)) => true,
        Some(Meant::Method(_)) => false,
        Some(Meant::Function(_, _)) => false,
        None => false,
    }
}

fn qualifies(before: Qualifier) -> bool
    ensures { (s : AScope) → result ≡ places.qualifies s (qualifier before) }
{
    match before {
        Qualifier::Values(_) => true,
        Qualifier::Untold => true,
        Qualifier::Nothing => false,
    }
}

fn is_fixed_name(s: &Scope<'_>, name: &Text) -> bool
    ensures { result ≡ places.is_no_variable s.now (sought s.now false name.now) }
{
    is_no_variable(s.sought(false, name))
}

/// The same where a name behind `.` follows.
fn is_fixed_before_field(s: &Scope<'_>, name: &Text) -> bool
    ensures { result ≡ (places.qualifies s.now (dot_qualifier s.now name.now) || places.is_no_variable s.now (sought s.now false name.now)) }
{
    if qualifies(s.dot_qualifier(name)) {
        true
    } else {
        is_fixed_name(s, name)
    }
}

/// Whether a place begins with a constant, an enumerator, or a variable at an input address.
fn is_fixed_root(s: &Scope<'_>, root: &Root<u32>, selectors: &[Selector<u32>]) -> bool
    ensures { result ≡ places.is_fixed_root s.now root.now (selectors_of selectors.now) }
{
    match root {
        Root::Name(_, name) => {
            if begins_with_field(selectors) {
                is_fixed_before_field(s, name)
            } else {
                is_fixed_name(s, name)
            }
        }
        Root::This(_) => false,
        Root::Super(_) => false,
    }
}

fn is_output_sort(sort: SectionSort) -> bool
    ensures { result ≡ places.is_output_sort sort }
{
    matches!(sort, SectionSort::Output)
}

/// Whether it is an output of a class outside of whose text, and of the text of those derived, the place stands.
fn is_outer_output(s: &Scope<'_>, p: Option<Part<'_>>) -> bool
    ensures { result ≡ places.is_outer_output s.now (parted p.entry) }
{
    match p {
        Some(Part::Member(d, v)) => is_output_sort(v.sort) && !s.is_under(d),
        Some(Part::Field(_, _)) => false,
        Some(Part::Method(_)) => false,
        Some(Part::Prototype(_)) => false,
        Some(Part::Value(_, _)) => false,
        None => false,
    }
}

/// What stands there, and whether it is in an output from outside.
#[derive(Clone, Copy)]
pub struct Within<'a> {
    pub standing: Standing<'a>,
    pub outer: bool,
}

#[tactic(auto, using(st_tree::specs::Expression::expression_views))]
fn one_selector<'a>(s: &Scope<'a>, so_far: Within<'a>, selector: &Selector<u32>) -> Within<'a>
    ensures { (ss : Selectors ℕ) → within s.now result ss ≡ within s.now so_far.entry (selector_then (selector_of selector.now) ss) }
{
    let standing = selected(s, so_far.standing, selector);
    let outer = match selector {
        Selector::Field(_, name) => {
            so_far.outer || is_outer_output(s, part_of(s, so_far.standing, false, name))
        }
        Selector::Index(_, _) => so_far.outer,
        Selector::Target(_) => false,
    };
    Within { standing, outer }
}

fn in_outer_output<'a>(s: &Scope<'a>, b: Standing<'a>, selectors: &[Selector<u32>]) -> bool
    ensures { result ≡ places.in_outer_output s.now false (standing b.entry) (selectors_of selectors.now) }
{
    let mut so_far = Within {
        standing: b,
        outer: false,
    };
    for selector in selectors {
        so_far = one_selector(s, so_far, selector);
    }
    so_far.outer
}

/// Whether a place is a constant, an enumerator, a variable at an input address, or in an output from outside.
#[tactic(auto, unfolding(st_rules::specs::Places::is_fixed))]
pub fn is_fixed(s: &Scope<'_>, root: &Root<u32>, selectors: &[Selector<u32>]) -> bool
    ensures { result ≡ places.is_fixed s.now root.now (selectors_of selectors.now) }
{
    is_fixed_root(s, root, selectors)
        || in_outer_output(s, root_standing(s, root, selectors), selectors)
}

fn instance_fault(
    s: &Scope<'_>,
    line: u32,
    root: &Root<u32>,
    selectors: &[Selector<u32>],
) -> Option<(Code, u32)>
    ensures { result ≡ least (places.instance_as_target s.now line root.now (selectors_of selectors.now)) }
{
    when(holds(placed(s, root, selectors)), Code::E08, line)
}

/// A place that may not be written: what is fixed, an instance, or an array that holds instances.
#[tactic(auto, using(st_rules::proofs::FaultLaws::faults), unfolding(st_rules::specs::Places::target_faults))]
pub fn target_fault(
    s: &Scope<'_>,
    root: &Root<u32>,
    selectors: &[Selector<u32>],
) -> Option<(Code, u32)>
    ensures { result ≡ least (places.target_faults s.now root.now (selectors_of selectors.now)) }
{
    let line = root_line(root);
    earlier(
        when(is_fixed(s, root, selectors), Code::E08, line),
        instance_fault(s, line, root, selectors),
    )
}
