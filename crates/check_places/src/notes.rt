//! What names are noted to mean, and the notes of roots and selectors.

ghost use Rattle.std.specs.Prelude.{◌≡◌, IfOk, option_map};
ghost use Rattle.st_types.specs.declared.st_type.StType.TheVariants as type;
ghost use Rattle.st_tree.specs.Expression.{selector_of, selectors_of};
ghost use Rattle.st_rules.specs.Scope.{Scope as AScope};
ghost use Rattle.st_rules.specs.Places as places;
ghost use Rattle.st_rules.specs.Expressions as expressions;
ghost use Rattle.name_resolution.specs.Meant.{meant, qualifier};
ghost use Rattle.check_places.specs.Standing.{standing, parted};
ghost use Rattle.check_places.specs.Private.Notes as own;

use crate::conversion::conversion_named;
use crate::parts::part_of;
use crate::places::{begins_with_field, root_standing};
use crate::roots::is_bare;
use crate::standing::{Part, Standing, standing_type};
use name_resolution::{Meant, Qualifier, Scope};
use plc_text::{NoMemory, Text};
use st_rules::{copied, told};
use st_tree::{Note, Root, Selector, Target};
use st_types::{Elem, StType};
use std::alloc::Global;

/// The note of a node of this type, where that can be told.
pub fn note(line: u32, t: Option<StType>, target: Target) -> Note
    ensures { result ≡ expressions.note line t target }
{
    Note {
        line,
        kind: told(t),
        target,
    }
}

/// The note of what stands there.
pub fn note_of(alloc: Global, line: u32, b: Standing<'_>, target: Target) -> Result<Note, NoMemory>
    ensures { IfOk result (λ n. n ≡ expressions.note line (places.standing_type (standing b.entry)) target) }
{
    let t = standing_type(alloc, b)?;
    Ok(note(line, t, target))
}

/// The note of an index or a `^`, from what stands behind it.
#[tactic(auto, unfolding(st_rules::specs::Expressions::standing_note))]
pub fn standing_note(alloc: Global, line: u32, b: Standing<'_>) -> Result<Note, NoMemory>
    ensures { (s : AScope) → IfOk result (λ n. n ≡ expressions.standing_note s line (standing b.entry)) }
{
    note_of(alloc, line, b, Target::Nothing)
}

fn part_target(p: Option<Part<'_>>) -> Target
    ensures { result ≡ expressions.part_target (parted p.entry) }
{
    match p {
        Some(Part::Field(k, _)) => Target::Field(k),
        Some(Part::Member(_, v)) => v.target,
        Some(Part::Method(id)) => Target::Method(id.method),
        Some(Part::Prototype(id)) => Target::Method(id.method),
        Some(Part::Value(_, k)) => Target::Enumerator(k),
        None => Target::Nothing,
    }
}

/// The note of a name behind `.`.
#[tactic(auto, unfolding(st_rules::specs::Expressions::part_note))]
pub fn part_note(
    alloc: Global,
    s: &Scope<'_>,
    called: bool,
    b: Standing<'_>,
    line: u32,
    name: &Text,
) -> Result<Note, NoMemory>
    ensures { IfOk result (λ n. n ≡ expressions.part_note s.now called (standing b.entry) line name.now) }
{
    let p = part_of(s, b, called, name);
    note_of_part(alloc, line, p)
}

fn note_of_part(alloc: Global, line: u32, p: Option<Part<'_>>) -> Result<Note, NoMemory>
    ensures { IfOk result (λ n. n ≡ expressions.note line (places.part_type (parted p.entry)) (expressions.part_target (parted p.entry))) }
{
    let t = part_type(alloc, p)?;
    Ok(note(line, t, part_target(p)))
}

fn part_type(alloc: Global, p: Option<Part<'_>>) -> Result<Option<StType>, NoMemory>
    ensures { IfOk result (λ t. t ≡ places.part_type (parted p.entry)) }
{
    match p {
        Some(Part::Field(_, field)) => copied(alloc, &field.kind),
        Some(Part::Member(_, v)) => copied(alloc, &v.kind),
        Some(Part::Value(n, _)) => Ok(Some(StType::Enumeration(n))),
        Some(Part::Method(_)) => Ok(None),
        Some(Part::Prototype(_)) => Ok(None),
        None => Ok(None),
    }
}

pub fn meant_target(m: Option<Meant<'_>>) -> Target
    ensures { result ≡ expressions.meant_target (meant m.entry) }
{
    match m {
        Some(Meant::Variable(_, v)) => v.target,
        Some(Meant::Method(id)) => Target::Method(id.method),
        Some(Meant::Function(k, _)) => Target::Function(k),
        Some(Meant::Enumerator(_, k)) => Target::Enumerator(k),
        None => Target::Nothing,
    }
}

/// What a whole place is noted to mean that is a bare name: a constant or an enumerator its value.
pub fn value_target(m: Option<Meant<'_>>) -> Target
    ensures { result ≡ expressions.value_target (meant m.entry) }
{
    match m {
        Some(Meant::Variable(_, v)) => {
            if v.constant {
                v.target
            } else {
                Target::Nothing
            }
        }
        Some(Meant::Enumerator(_, k)) => Target::Enumerator(k),
        Some(Meant::Method(_)) => Target::Nothing,
        Some(Meant::Function(_, _)) => Target::Nothing,
        None => Target::Nothing,
    }
}

fn meant_type(alloc: Global, m: Option<Meant<'_>>) -> Result<Option<StType>, NoMemory>
    ensures { IfOk result (λ t. t ≡ places.meant_type (meant m.entry)) }
{
    match m {
        Some(Meant::Variable(_, v)) => copied(alloc, &v.kind),
        Some(Meant::Enumerator(n, _)) => Ok(Some(StType::Enumeration(n))),
        Some(Meant::Method(_)) => Ok(None),
        Some(Meant::Function(_, _)) => Ok(None),
        None => Ok(None),
    }
}

/// The same, where the name of a method has the type of THIS.
fn called_type(
    alloc: Global,
    s: &Scope<'_>,
    m: Option<Meant<'_>>,
) -> Result<Option<StType>, NoMemory>
    ensures { IfOk result (λ t. t ≡ expressions.root_meant_type s.now (meant m.entry)) }
{
    match m {
        Some(Meant::Method(_)) => Ok(instance_of(s.class())),
        Some(Meant::Variable(_, v)) => copied(alloc, &v.kind),
        Some(Meant::Enumerator(n, _)) => Ok(Some(StType::Enumeration(n))),
        Some(Meant::Function(_, _)) => Ok(None),
        None => Ok(None),
    }
}

fn instance_of(class: Option<u32>) -> Option<StType>
    ensures { result ≡ option_map type.Instance class }
{
    match class {
        Some(c) => Some(StType::Instance(c)),
        None => None,
    }
}

fn name_note(
    alloc: Global,
    line: u32,
    before: Qualifier,
    m: Option<Meant<'_>>,
) -> Result<Note, NoMemory>
    ensures { IfOk result (λ n. n ≡ expressions.qualifier_note line (qualifier before) (meant m.entry)) }
{
    match before {
        Qualifier::Values(n) => Ok(note(line, Some(StType::Enumeration(n)), Target::Nothing)),
        Qualifier::Untold => Ok(note(line, None, Target::Nothing)),
        Qualifier::Nothing => {
            let t = meant_type(alloc, m)?;
            Ok(note(line, t, meant_target(m)))
        }
    }
}

fn called_name_note(
    alloc: Global,
    s: &Scope<'_>,
    line: u32,
    m: Option<Meant<'_>>,
) -> Result<Note, NoMemory>
    ensures { IfOk result (λ n. n ≡ expressions.note line (expressions.root_meant_type s.now (meant m.entry)) (expressions.meant_target (meant m.entry))) }
{
    let t = called_type(alloc, s, m)?;
    Ok(note(line, t, meant_target(m)))
}

/// The note of a name that is called, where it is a conversion to a kind or none.
fn called_note(
    alloc: Global,
    s: &Scope<'_>,
    line: u32,
    conversion: Option<(Elem, Elem)>,
    m: Option<Meant<'_>>,
) -> Result<Note, NoMemory>
    ensures { IfOk result (λ n. n ≡ expressions.called_note s.now line conversion (meant m.entry)) }
{
    match conversion {
        Some((_, to)) => Ok(note(line, Some(StType::Elementary(to)), Target::Conversion)),
        None => called_name_note(alloc, s, line, m),
    }
}

fn bare_note(
    alloc: Global,
    s: &Scope<'_>,
    called: bool,
    line: u32,
    name: &Text,
) -> Result<Note, NoMemory>
    ensures { IfOk result (λ n. n ≡ own.bare_note s.now called line name.now) }
{
    if called {
        called_note(alloc, s, line, conversion_named(name), s.sought(true, name))
    } else {
        name_note(alloc, line, Qualifier::Nothing, s.sought(false, name))
    }
}

/// The note of a name that a place begins with, where a call stands behind the place or not.
fn root_note(
    alloc: Global,
    s: &Scope<'_>,
    called: bool,
    line: u32,
    name: &Text,
    selectors: &[Selector<u32>],
) -> Result<Note, NoMemory>
    ensures { IfOk result (λ n. n ≡ own.root_note s.now called line name.now (selectors_of selectors.now)) }
{
    if is_bare(selectors) {
        bare_note(alloc, s, called, line, name)
    } else if begins_with_field(selectors) {
        name_note(alloc, line, s.dot_qualifier(name), s.sought(false, name))
    } else {
        name_note(alloc, line, Qualifier::Nothing, s.sought(false, name))
    }
}

/// What a place begins with, noted.
#[tactic(auto, using(crate::proofs::NoteLaws::typed_roots))]
pub fn typed_root(
    alloc: Global,
    s: &Scope<'_>,
    called: bool,
    root: &Root<u32>,
    selectors: &[Selector<u32>],
) -> Result<Root<Note>, NoMemory>
    ensures { IfOk result (λ r. r ≡ expressions.typed_root s.now called root.now (selectors_of selectors.now)) }
{
    match root {
        Root::Name(line, name) => {
            let note = root_note(alloc, s, called, *line, name, selectors)?;
            let name = Text::copy(alloc, name.as_str())?;
            Ok(Root::Name(note, name))
        }
        Root::This(line) => {
            let b = root_standing(s, root, selectors);
            let note = note_of(alloc, *line, b, Target::Nothing)?;
            Ok(Root::This(note))
        }
        Root::Super(line) => {
            let b = root_standing(s, root, selectors);
            let note = note_of(alloc, *line, b, Target::Nothing)?;
            Ok(Root::Super(note))
        }
    }
}

/// What a place as a whole is noted to mean: of `Type.Name`, a constant or an enumerator its value.
#[tactic(auto, using(crate::proofs::NoteLaws::whole_targets))]
pub fn whole_target(s: &Scope<'_>, root: &Root<u32>, selectors: &[Selector<u32>]) -> Target
    ensures { result ≡ expressions.whole_target s.now root.now (selectors_of selectors.now) }
{
    match root {
        Root::Name(_, name) => {
            if is_bare(selectors) {
                value_target(s.sought(false, name))
            } else {
                qualified_target(s, root_standing(s, root, selectors), selectors)
            }
        }
        Root::This(_) => Target::Nothing,
        Root::Super(_) => Target::Nothing,
    }
}

/// What the one name behind `.` means, behind the name of an enumeration.
fn qualified_target(s: &Scope<'_>, b: Standing<'_>, selectors: &[Selector<u32>]) -> Target
    ensures { result ≡ own.qualified_target s.now (standing b.entry) (selectors_of selectors.now) }
{
    match selectors.split_first() {
        Some((first, behind)) => {
            if is_bare(behind) {
                enumeration_target(s, b, first)
            } else {
                Target::Nothing
            }
        }
        None => Target::Nothing,
    }
}

fn enumeration_target(s: &Scope<'_>, b: Standing<'_>, selector: &Selector<u32>) -> Target
    ensures { result ≡ own.enumeration_target s.now (standing b.entry) (selector_of selector.now) }
{
    match b {
        Standing::Enumeration(_) => named_target(s, b, selector),
        Standing::Value(_) => Target::Nothing,
        Standing::Instance(_) => Target::Nothing,
        Standing::Enumerator(_) => Target::Nothing,
        Standing::Own(_) => Target::Nothing,
        Standing::NoBase => Target::Nothing,
        Standing::Untold => Target::Nothing,
    }
}

#[tactic(auto, using(st_tree::specs::Expression::expression_views))]
fn named_target(s: &Scope<'_>, b: Standing<'_>, selector: &Selector<u32>) -> Target
    ensures { result ≡ own.named_target s.now (standing b.entry) (selector_of selector.now) }
{
    match selector {
        Selector::Field(_, name) => part_target(part_of(s, b, false, name)),
        Selector::Index(_, _) => Target::Nothing,
        Selector::Target(_) => Target::Nothing,
    }
}
