//! Places that mean constants.

ghost use Rattle.std.specs.Prelude.{◌≡◌, ◌&&◌, false};
ghost use Rattle.st_tree.specs.Expression.{selector_of, selectors_of};
ghost use Rattle.st_rules.specs.Expressions as expressions;
ghost use Rattle.st_rules.specs.Faults.{least};
ghost use Rattle.st_rules.specs.Places as places;
ghost use Rattle.st_rules.specs.Scope.{Scope as AScope, sought, dot_qualifier};
ghost use Rattle.st_unit_rules.specs.declared_names.Constants as constants;
ghost use Rattle.constant_folding.specs.constant_rules.Private.Places as own;

use check_places::{conversion_named, is_last, root_line};
use name_resolution::{Meant, Qualifier, Scope};
use plc_text::{Code, Text};
use st_rules::when;
use st_tree::{Root, Selector};

/// Whether the name is that of a constant or an enumerator.
fn is_constant_name(s: &Scope<'_>, name: &Text) -> bool
    ensures { result ≡ constants.is_constant_meaning s.now (sought s.now false name.now) }
{
    match s.sought(false, name) {
        Some(Meant::Variable(_, variable)) => variable.constant,
        Some(Meant::Enumerator(_, _)) => true,
        Some(Meant::Method(_)) => false,
        Some(Meant::Function(_, _)) => false,
        None => false,
    }
}

/// Whether the name qualifies the name of a value.
fn is_qualifier(s: &Scope<'_>, name: &Text) -> bool
    ensures { result ≡ places.qualifies s.now (dot_qualifier s.now name.now) }
{
    match s.dot_qualifier(name) {
        Qualifier::Values(_) => true,
        Qualifier::Untold => true,
        Qualifier::Nothing => false,
    }
}

#[tactic(auto, using(st_tree::specs::Expression::expression_views))]
fn is_field(selector: &Selector<u32>) -> bool
    ensures { result ≡ own.is_field (selector_of selector.now) }
{
    match selector {
        Selector::Field(_, _) => true,
        Selector::Index(_, _) => false,
        Selector::Target(_) => false,
    }
}

/// Whether one name stands behind, and nothing else.
fn is_one_field(selectors: &[Selector<u32>]) -> bool
    ensures { result ≡ own.is_one_field (selectors_of selectors.now) }
{
    match selectors.split_first() {
        Some((selector, behind)) => is_last(behind) && is_field(selector),
        None => false,
    }
}

/// Whether a name with what stands behind it means a constant.
fn is_constant_at(s: &Scope<'_>, name: &Text, selectors: &[Selector<u32>]) -> bool
    ensures { result ≡ own.is_constant_at s.now name.now (selectors_of selectors.now) }
{
    if is_last(selectors) {
        is_constant_name(s, name)
    } else {
        is_one_field(selectors) && is_qualifier(s, name)
    }
}

/// Whether a place means a constant or an enumerator.
#[tactic(auto, using(crate::proofs::constant_rules::PlaceLaws::constant_name, crate::proofs::constant_rules::PlaceLaws::constant_this, crate::proofs::constant_rules::PlaceLaws::constant_super))]
fn is_constant_place(s: &Scope<'_>, root: &Root<u32>, selectors: &[Selector<u32>]) -> bool
    ensures { result ≡ constants.is_constant_place s.now root.now (selectors_of selectors.now) }
{
    match root {
        Root::Name(_, name) => is_constant_at(s, name, selectors),
        Root::This(_) => false,
        Root::Super(_) => false,
    }
}

/// E05 where a place is no constant.
pub fn constant_place_fault(
    s: &Scope<'_>,
    root: &Root<u32>,
    selectors: &[Selector<u32>],
) -> Option<(Code, u32)>
    ensures { result ≡ least (constants.no_constant_place s.now root.now (selectors_of selectors.now)) }
{
    when(
        !is_constant_place(s, root, selectors),
        Code::E05,
        root_line(root),
    )
}

/// Whether what is called is a conversion, by its name.
#[tactic(auto, using(crate::proofs::constant_rules::PlaceLaws::conversion_name, crate::proofs::constant_rules::PlaceLaws::conversion_this, crate::proofs::constant_rules::PlaceLaws::conversion_super))]
pub fn is_conversion(s: &Scope<'_>, root: &Root<u32>, selectors: &[Selector<u32>]) -> bool
    ensures { result ≡ expressions.is_conversion s.now root.now (selectors_of selectors.now) }
{
    match root {
        Root::Name(_, name) => is_last(selectors) && conversion_named(name).is_some(),
        Root::This(_) => false,
        Root::Super(_) => false,
    }
}
