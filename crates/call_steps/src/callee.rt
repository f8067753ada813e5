//! What a call calls (IEC 61131-3:2013, 6.6.1.4 and 6.6.5.5).

ghost use Rattle.std.specs.Prelude.{◌≡◌, None, option_map};
ghost use Rattle.st_tree.specs.Expression.{selector_of, selectors_of};
ghost use Rattle.st_meaning.specs.Call as words;
ghost use Rattle.call_steps.specs.Callee.{callee_seen, search_seen};
ghost use Rattle.call_steps.specs.Private.Callee.{is_last};

use plc_text::Text;
use st_tree::{Note, Root, Selector, Target};
use st_types::StType;

/// From which class a method or a body is sought: that of the instance, or a class of the text.
#[derive(Clone, Copy)]
pub enum Search {
    ByInstance,
    FromClass(u32),
}

/// What a call calls.
#[derive(Clone, Copy)]
pub enum Callee<'p> {
    Conversion,
    Function(u32),
    Method(Search, &'p Text),
    Body(Search),
}

/// The name of a method behind a place.
#[tactic(auto, using(st_tree::specs::Expression::expression_views))]
fn method_name(selector: &Selector<Note>) -> Option<&Text>
    ensures { option_map (λ t. t.now) result ≡ words.method_name (selector_of selector.now) }
{
    match selector {
        Selector::Field(a, name) => match a.target {
            Target::Method(_) => Some(name),
            _ => None,
        },
        Selector::Index(_, _) => None,
        Selector::Target(_) => None,
    }
}

/// The method that stands last.
fn last_method(selectors: &[Selector<Note>]) -> Option<&Text>
    ensures { option_map (λ t. t.now) result ≡ words.last_method None (selectors_of selectors.now) }
{
    let mut found = None;
    let mut left = selectors;
    'selectors: while let Some((selector, behind)) = left.split_first() {
        found = method_name(selector);
        left = behind;
    }
    found
}

/// Whether no selector is left.
fn is_last(selectors: &[Selector<Note>]) -> bool
    ensures { result ≡ is_last (selectors_of selectors.now) }
{
    match selectors.first() {
        Some(_) => false,
        None => true,
    }
}

/// Whether nothing but `^` stands before the method.
#[tactic(auto, using(st_tree::specs::Expression::expression_views, crate::proofs::CalleeLaws::direct_field))]
fn is_direct(selectors: &[Selector<Note>]) -> bool
    ensures { result ≡ words.is_direct (selectors_of selectors.now) }
{
    let mut left = selectors;
    'selectors: while let Some((selector, behind)) = left.split_first() {
        match selector {
            Selector::Field(_, _) => return is_last(behind) && method_name(selector).is_some(),
            Selector::Index(_, _) => return false,
            Selector::Target(_) => left = behind,
        }
    }
    true
}

/// The class of an instance type; 0 of any other.
pub fn class_of_kind(kind: &StType) -> u32
    ensures { result ≡ words.class_of_kind kind.now }
{
    match kind {
        StType::Instance(c) => *c,
        _ => 0,
    }
}

/// A call on SUPER goes upward from the base of the class whose text it is.
fn search_of(root: &Root<Note>, selectors: &[Selector<Note>]) -> Search
    ensures { search_seen result ≡ words.search_of root.now (selectors_of selectors.now) }
{
    match root {
        Root::Super(a) => {
            if is_direct(selectors) {
                Search::FromClass(class_of_kind(&a.kind))
            } else {
                Search::ByInstance
            }
        }
        Root::Name(_, _) => Search::ByInstance,
        Root::This(_) => Search::ByInstance,
    }
}

fn member_callee<'p>(search: Search, name: Option<&'p Text>) -> Callee<'p>
    ensures { callee_seen result ≡ words.member_callee (search_seen search) (option_map (λ t. t.now) name.entry) }
{
    match name {
        Some(name) => Callee::Method(search, name),
        None => Callee::Body(search),
    }
}

/// What a bare name calls.
fn named_callee<'p>(target: &Target, name: &'p Text) -> Callee<'p>
    ensures { callee_seen result ≡ words.named_callee target.now name.now }
{
    match target {
        Target::Function(k) => Callee::Function(*k),
        Target::Method(_) => Callee::Method(Search::ByInstance, name),
        Target::Conversion => Callee::Conversion,
        _ => Callee::Body(Search::ByInstance),
    }
}

fn place_callee<'p>(root: &Root<Note>, selectors: &'p [Selector<Note>]) -> Callee<'p>
    ensures { callee_seen result ≡ words.member_callee (words.search_of root.now (selectors_of selectors.now)) (words.last_method None (selectors_of selectors.now)) }
{
    member_callee(search_of(root, selectors), last_method(selectors))
}

/// What the place before a call's arguments calls.
pub fn callee_of<'p>(root: &'p Root<Note>, selectors: &'p [Selector<Note>]) -> Callee<'p>
    ensures { callee_seen result ≡ words.callee_of root.now (selectors_of selectors.now) }
{
    match root {
        Root::Name(a, name) => {
            if is_last(selectors) {
                named_callee(&a.target, name)
            } else {
                place_callee(root, selectors)
            }
        }
        Root::This(_) => place_callee(root, selectors),
        Root::Super(_) => place_callee(root, selectors),
    }
}
