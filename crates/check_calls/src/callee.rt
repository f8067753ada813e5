//! What a call calls.

ghost use Rattle.std.specs.Prelude.{◌≡◌, ℕ, if◌then◌else◌, Some};
ghost use Rattle.std.specs.Option.{option_copied};
ghost use Rattle.st_tree.specs.Expression.{Selectors, selector_then, selector_of, selectors_of};
ghost use Rattle.st_rules.specs.Faults.{least};
ghost use Rattle.st_rules.specs.Scope.{Scope as AScope, method_routine, prototype_routine, is_block_at};
ghost use Rattle.st_rules.specs.Places as places;
ghost use Rattle.st_rules.specs.Calls as calls;
ghost use Rattle.st_rules.specs.Expressions as expressions;
ghost use Rattle.name_resolution.specs.Meant.{meant};
ghost use Rattle.check_places.specs.Standing.{standing, parted};
ghost use Rattle.check_calls.specs.Callee.{called};
ghost use Rattle.check_calls.specs.Private.Callee.{leads};

use check_places::{
    Part, Standing, conversion_named, is_last, part_of, root_fault, root_standing, selected,
};
use name_resolution::{Meant, Scope};
use plc_text::Code;
use st_rules::{DeclaredRoutine, MethodId, PrototypeId};
use st_tree::{Root, Selector};
use st_types::{Elem, StType};

/// What a call calls.
#[derive(Clone, Copy)]
pub enum Callee<'a> {
    /// What is not found, or cannot be told.
    Nothing,
    /// A variable, a constant, an enumerator, an instance of a class.
    NotCallable,
    /// From the first kind to the second.
    Conversion(Elem, Elem),
    /// A function or a method.
    Routine(&'a DeclaredRoutine),
    /// The body of a function block.
    Body(u32),
    /// SUPER(): the body of the base.
    BaseBody(u32),
    /// SUPER() without a base that is a function block.
    NoBaseBody,
}

fn block_body<'a>(s: &Scope<'_>, class: u32) -> Callee<'a>
    ensures { called result ≡ calls.block_body s.now class }
{
    if s.is_block(class) {
        Callee::Body(class)
    } else {
        Callee::NotCallable
    }
}

fn value_callee<'a>(s: &Scope<'_>, t: &StType) -> Callee<'a>
    ensures { called result ≡ calls.called_type s.now (Some t.now) }
{
    match t {
        StType::Instance(c) => block_body(s, *c),
        _ => Callee::NotCallable,
    }
}

fn told_callee<'a>(s: &Scope<'_>, t: &Option<StType>) -> Callee<'a>
    ensures { called result ≡ calls.called_type s.now t.now }
{
    match t {
        Some(t) => value_callee(s, t),
        None => Callee::Nothing,
    }
}

fn routine_callee(r: Option<&DeclaredRoutine>) -> Callee<'_>
    ensures { (s : AScope) → called result ≡ calls.routine_callee s (option_copied r.entry) }
{
    match r {
        Some(r) => Callee::Routine(r),
        None => Callee::Nothing,
    }
}

fn method_callee<'a>(s: &Scope<'a>, id: MethodId) -> Callee<'a>
    ensures { called result ≡ calls.routine_callee s.now (method_routine s.now id) }
{
    match s.method_routine(id) {
        Some(r) => Callee::Routine(r),
        None => Callee::Nothing,
    }
}

fn prototype_callee<'a>(s: &Scope<'a>, id: PrototypeId) -> Callee<'a>
    ensures { called result ≡ calls.routine_callee s.now (prototype_routine s.now id) }
{
    match s.prototype_routine(id) {
        Some(r) => Callee::Routine(r),
        None => Callee::Nothing,
    }
}

fn meant_callee<'a>(s: &Scope<'a>, m: Option<Meant<'a>>) -> Callee<'a>
    ensures { called result ≡ calls.meant_callee s.now (meant m.entry) }
{
    match m {
        Some(Meant::Variable(_, v)) => told_callee(s, &v.kind),
        Some(Meant::Method(id)) => method_callee(s, id),
        Some(Meant::Function(_, r)) => Callee::Routine(r),
        Some(Meant::Enumerator(_, _)) => Callee::NotCallable,
        None => Callee::Nothing,
    }
}

fn part_callee<'a>(s: &Scope<'a>, p: Option<Part<'a>>) -> Callee<'a>
    ensures { called result ≡ calls.part_callee s.now (parted p.entry) }
{
    match p {
        Some(Part::Field(_, field)) => told_callee(s, &field.kind),
        Some(Part::Member(_, v)) => told_callee(s, &v.kind),
        Some(Part::Method(id)) => method_callee(s, id),
        Some(Part::Prototype(id)) => prototype_callee(s, id),
        Some(Part::Value(_, _)) => Callee::NotCallable,
        None => Callee::Nothing,
    }
}

fn base_body<'a>(s: &Scope<'_>, base: u32) -> Callee<'a>
    ensures { called result ≡ (if is_block_at s.now base then calls.base_body base else calls.no_base_body) }
{
    if s.is_block(base) {
        Callee::BaseBody(base)
    } else {
        Callee::NoBaseBody
    }
}

/// THIS calls the own body, SUPER that of the base.
fn own_callee<'a>(s: &Scope<'_>, root: &Root<u32>, class: u32) -> Callee<'a>
    ensures { called result ≡ calls.own_callee s.now root.now class }
{
    match root {
        Root::Super(_) => base_body(s, class),
        Root::This(_) => block_body(s, class),
        Root::Name(_, _) => block_body(s, class),
    }
}

fn standing_callee<'a>(s: &Scope<'_>, root: &Root<u32>, b: Standing<'_>) -> Callee<'a>
    ensures { called result ≡ calls.standing_callee s.now root.now (standing b.entry) }
{
    match b {
        Standing::Value(t) => value_callee(s, t),
        Standing::Instance(c) => block_body(s, c),
        Standing::Enumerator(_) => Callee::NotCallable,
        Standing::Own(c) => own_callee(s, root, c),
        Standing::NoBase => Callee::NoBaseBody,
        Standing::Untold => Callee::Nothing,
        Standing::Enumeration(_) => Callee::Nothing,
    }
}

/// Where a selector leads.
#[derive(Clone, Copy)]
pub enum Leads<'a> {
    /// To what stands before the next.
    On(Standing<'a>),
    /// To what is called.
    To(Callee<'a>),
}

#[tactic(auto, using(st_tree::specs::Expression::expression_views, crate::proofs::CalleeLaws::steps))]
fn one_selector<'a>(
    s: &Scope<'a>,
    root: &Root<u32>,
    b: Standing<'a>,
    selector: &Selector<u32>,
    last: bool,
) -> Leads<'a>
    ensures { (ss : Selectors ℕ) → places.is_last ss ≡ last → leads s.now root.now result ss ≡ calls.callee_along s.now root.now (standing b.entry) (selector_then (selector_of selector.now) ss) }
{
    match selector {
        Selector::Field(_, name) => {
            if last {
                Leads::To(part_callee(s, part_of(s, b, true, name)))
            } else {
                Leads::On(selected(s, b, selector))
            }
        }
        Selector::Index(_, _) => Leads::On(selected(s, b, selector)),
        Selector::Target(_) => Leads::On(selected(s, b, selector)),
    }
}

fn callee_along<'a>(
    s: &Scope<'a>,
    root: &Root<u32>,
    b: Standing<'a>,
    selectors: &[Selector<u32>],
) -> Callee<'a>
    ensures { called result ≡ calls.callee_along s.now root.now (standing b.entry) (selectors_of selectors.now) }
{
    let mut at = b;
    let mut left = selectors;
    'selectors: while let Some((selector, behind)) = left.split_first() {
        match one_selector(s, root, at, selector, is_last(behind)) {
            Leads::On(next) => at = next,
            Leads::To(found) => return found,
        }
        left = behind;
    }
    standing_callee(s, root, at)
}

fn name_callee<'a>(
    s: &Scope<'a>,
    conversion: Option<(Elem, Elem)>,
    m: Option<Meant<'a>>,
) -> Callee<'a>
    ensures { called result ≡ calls.name_callee s.now conversion (meant m.entry) }
{
    match conversion {
        Some((from, to)) => Callee::Conversion(from, to),
        None => meant_callee(s, m),
    }
}

/// What is called where nothing stands behind.
fn root_callee<'a>(s: &Scope<'a>, root: &Root<u32>) -> Callee<'a>
    ensures { called result ≡ calls.root_callee s.now root.now }
{
    match root {
        Root::Name(_, name) => name_callee(s, conversion_named(name), s.sought(true, name)),
        Root::This(_) => standing_callee(s, root, root_standing(s, root, &[])),
        Root::Super(_) => standing_callee(s, root, root_standing(s, root, &[])),
    }
}

/// What is called at a place.
#[tactic(auto, using(crate::proofs::CalleeLaws::callee_is))]
pub fn callee_at<'a>(s: &Scope<'a>, root: &Root<u32>, selectors: &[Selector<u32>]) -> Callee<'a>
    ensures { called result ≡ calls.callee s.now root.now (selectors_of selectors.now) }
{
    if is_last(selectors) {
        root_callee(s, root)
    } else {
        callee_along(s, root, root_standing(s, root, selectors), selectors)
    }
}

fn is_conversion(root: &Root<u32>, selectors: &[Selector<u32>]) -> bool
    ensures { (s : AScope) → result ≡ expressions.is_conversion s root.now (selectors_of selectors.now) }
{
    match root {
        Root::Name(_, name) => is_last(selectors) && conversion_named(name).is_some(),
        Root::This(_) => false,
        Root::Super(_) => false,
    }
}

/// The rules of what a called place begins with; the name of a conversion is sought nowhere.
pub fn called_root_fault(
    s: &Scope<'_>,
    root: &Root<u32>,
    selectors: &[Selector<u32>],
) -> Option<(Code, u32)>
    ensures { result ≡ least (expressions.called_root_faults s.now root.now (selectors_of selectors.now)) }
{
    if is_conversion(root, selectors) {
        None
    } else {
        root_fault(s, true, root, selectors)
    }
}

#[tactic(auto, using(st_tree::specs::Expression::expression_views))]
fn is_direct(selectors: &[Selector<u32>]) -> bool
    ensures { result ≡ calls.is_direct (selectors_of selectors.now) }
{
    let mut left = selectors;
    'selectors: while let Some((selector, behind)) = left.split_first() {
        match selector {
            Selector::Field(_, _) => return is_last(behind),
            Selector::Index(_, _) => return false,
            Selector::Target(_) => left = behind,
        }
    }
    false
}

/// Whether it is a call on SUPER itself: with nothing but `^` before the method's name.
#[tactic(auto, unfolding(st_rules::specs::Calls::is_on_super))]
pub fn is_on_super(root: &Root<u32>, selectors: &[Selector<u32>]) -> bool
    ensures { result ≡ calls.is_on_super root.now (selectors_of selectors.now) }
{
    match root {
        Root::Super(_) => is_direct(selectors),
        Root::Name(_, _) => false,
        Root::This(_) => false,
    }
}
