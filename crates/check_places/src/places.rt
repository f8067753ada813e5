//! What stands at a place.

ghost use Rattle.std.specs.Prelude.{◌≡◌, Some};
ghost use Rattle.st_tree.specs.Expression.{Selectors, selector_of, selectors_of, expressions_of};
ghost use Rattle.st_rules.specs.Places as places;
ghost use Rattle.name_resolution.specs.Meant.{meant, qualifier};
ghost use Rattle.check_places.specs.Standing.{standing};
ghost use Rattle.check_places.specs.Private.Places as own;

use crate::indices::indexed;
use crate::parts::part_of;
use crate::standing::{Standing, as_value, dereferenced, part_standing, standing_of};
use name_resolution::{Meant, Qualifier, Scope};
use plc_text::Text;
use st_tree::{Root, Selector};

/// Whether a name behind `.` comes first.
#[tactic(auto, using(st_tree::specs::Expression::expression_views))]
pub fn begins_with_field(selectors: &[Selector<u32>]) -> bool
    ensures { result ≡ own.begins_with_field (selectors_of selectors.now) }
{
    match selectors.first() {
        Some(selector) => is_field(selector),
        None => false,
    }
}

#[tactic(auto, using(st_tree::specs::Expression::expression_views))]
fn is_field(selector: &Selector<u32>) -> bool
    ensures { result ≡ own.is_field (selector_of selector.now) }
{
    match selector {
        Selector::Field(_, _) => true,
        Selector::Index(_, _) => false,
        Selector::Target(_) => false,
    }
}

/// What stands where a bare name means this.
fn meant_standing(m: Option<Meant<'_>>) -> Standing<'_>
    ensures { standing result ≡ places.standing_of (places.meant_type (meant m.entry)) }
{
    match m {
        Some(Meant::Variable(_, v)) => standing_of(&v.kind),
        Some(Meant::Enumerator(n, _)) => Standing::Enumerator(n),
        Some(Meant::Method(_)) => Standing::Untold,
        Some(Meant::Function(_, _)) => Standing::Untold,
        None => Standing::Untold,
    }
}

fn name_standing<'a>(s: &Scope<'a>, name: &Text) -> Standing<'a>
    ensures { standing result ≡ places.name_standing s.now name.now }
{
    meant_standing(s.sought(false, name))
}

fn qualified_standing<'a>(s: &Scope<'a>, before: Qualifier, name: &Text) -> Standing<'a>
    ensures { standing result ≡ places.qualified_standing s.now (qualifier before) name.now }
{
    match before {
        Qualifier::Values(n) => Standing::Enumeration(n),
        Qualifier::Untold => Standing::Untold,
        Qualifier::Nothing => name_standing(s, name),
    }
}

fn this_standing<'a>(s: &Scope<'a>) -> Standing<'a>
    ensures { standing result ≡ places.this_standing s.now s.now.class }
{
    match s.class() {
        Some(c) => Standing::Own(c),
        None => Standing::Untold,
    }
}

fn base_standing<'a>(base: Option<u32>) -> Standing<'a>
    ensures { standing result ≡ own.base_standing base }
{
    match base {
        Some(b) => Standing::Own(b),
        None => Standing::Untold,
    }
}

fn super_by<'a>(derived: Option<bool>, base: Option<u32>) -> Standing<'a>
    ensures { standing result ≡ own.super_by derived base }
{
    match derived {
        Some(true) => base_standing(base),
        Some(false) => Standing::NoBase,
        None => Standing::Untold,
    }
}

fn super_of<'a>(s: &Scope<'a>, class: u32) -> Standing<'a>
    ensures { standing result ≡ places.super_standing s.now (Some class) }
{
    super_by(s.is_derived(class), s.base_of(class))
}

fn super_standing<'a>(s: &Scope<'a>) -> Standing<'a>
    ensures { standing result ≡ places.super_standing s.now s.now.class }
{
    match s.class() {
        Some(c) => super_of(s, c),
        None => Standing::Untold,
    }
}

/// What a place begins with; the name of an enumeration stands before `.` alone.
#[tactic(auto, using(crate::proofs::PlaceLaws::roots))]
pub fn root_standing<'a>(
    s: &Scope<'a>,
    root: &Root<u32>,
    selectors: &[Selector<u32>],
) -> Standing<'a>
    ensures { standing result ≡ places.root_standing s.now root.now (selectors_of selectors.now) }
{
    match root {
        Root::This(_) => this_standing(s),
        Root::Super(_) => super_standing(s),
        Root::Name(_, name) => {
            if begins_with_field(selectors) {
                qualified_standing(s, s.dot_qualifier(name), name)
            } else {
                name_standing(s, name)
            }
        }
    }
}

/// What stands behind a selector.
#[tactic(auto, using(st_tree::specs::Expression::expression_views), unfolding(st_rules::specs::Places::selected))]
pub fn selected<'a>(s: &Scope<'a>, b: Standing<'a>, selector: &Selector<u32>) -> Standing<'a>
    ensures { standing result ≡ places.selected s.now (standing b.entry) (selector_of selector.now) }
{
    match selector {
        Selector::Field(_, name) => part_standing(part_of(s, b, false, name)),
        Selector::Index(_, indices) => as_value(indexed(b, indices.as_slice())),
        Selector::Target(_) => dereferenced(b),
    }
}

fn along<'a>(s: &Scope<'a>, b: Standing<'a>, selectors: &[Selector<u32>]) -> Standing<'a>
    ensures { standing result ≡ places.along s.now (standing b.entry) (selectors_of selectors.now) }
{
    let mut at = b;
    for selector in selectors {
        at = selected(s, at, selector);
    }
    at
}

/// What stands at a place.
#[tactic(auto, unfolding(st_rules::specs::Places::placed))]
pub fn placed<'a>(s: &Scope<'a>, root: &Root<u32>, selectors: &[Selector<u32>]) -> Standing<'a>
    ensures { standing result ≡ places.placed s.now root.now (selectors_of selectors.now) }
{
    along(s, root_standing(s, root, selectors), selectors)
}
