//! What stands at a place, and what a name behind `.` means.

ghost use Rattle.std.specs.Prelude.{◌≡◌, IfOk, option_and_then};
ghost use Rattle.st_rules.specs.Faults.{least};
ghost use Rattle.st_rules.specs.Kinds as kinds;
ghost use Rattle.st_rules.specs.Scope.{Scope as AScope};
ghost use Rattle.st_rules.specs.Places as places;
ghost use Rattle.check_places.specs.Standing.{standing, parted};

use plc_text::{Code, NoMemory};
use st_operators::{element_type, holds_instances};
use st_rules::{DeclaredField, DeclaredVariable, MethodId, PrototypeId, at, when};
use st_types::StType;
use std::alloc::Global;

/// What stands before a selector, or is the whole place.
#[derive(Clone, Copy)]
pub enum Standing<'a> {
    /// Nothing whose type can be told.
    Untold,
    /// A value of this type.
    Value(&'a StType),
    /// An instance of this class: what a reference leads to, or what THIS is worth.
    Instance(u32),
    /// A value of this enumeration.
    Enumerator(u32),
    /// THIS or SUPER: the own instance, as one of this class.
    Own(u32),
    /// SUPER in a class without a base.
    NoBase,
    /// The name of an enumeration, behind which the name of a value stands.
    Enumeration(u32),
}

/// What a name behind `.` means.
#[derive(Clone, Copy)]
pub enum Part<'a> {
    /// A field of a structure, with its number.
    Field(u32, &'a DeclaredField),
    /// A variable of an instance, with the class that declares it.
    Member(u32, &'a DeclaredVariable),
    Method(MethodId),
    Prototype(PrototypeId),
    /// A value of an enumeration, with its number.
    Value(u32, u32),
}

/// What stands where a type may be told.
pub fn standing_of(t: &Option<StType>) -> Standing<'_>
    ensures { standing result ≡ places.standing_of t.now }
{
    match t {
        Some(t) => Standing::Value(t),
        None => Standing::Untold,
    }
}

/// The type of what stands there; nothing where it cannot be told.
pub fn standing_type(alloc: Global, b: Standing<'_>) -> Result<Option<StType>, NoMemory>
    ensures { IfOk result (λ t. t ≡ places.standing_type (standing b.entry)) }
{
    match b {
        Standing::Value(t) => {
            let copy = t.copy(alloc)?;
            Ok(Some(copy))
        }
        Standing::Instance(c) => Ok(Some(StType::Instance(c))),
        Standing::Own(c) => Ok(Some(StType::Instance(c))),
        Standing::Enumerator(n) => Ok(Some(StType::Enumeration(n))),
        Standing::Untold => Ok(None),
        Standing::NoBase => Ok(None),
        Standing::Enumeration(_) => Ok(None),
    }
}

/// The same as a value of its type, THIS and SUPER among them.
pub fn as_value(b: Standing<'_>) -> Standing<'_>
    ensures { standing result ≡ places.standing_of (places.standing_type (standing b.entry)) }
{
    match b {
        Standing::Value(t) => Standing::Value(t),
        Standing::Instance(c) => Standing::Instance(c),
        Standing::Own(c) => Standing::Instance(c),
        Standing::Enumerator(n) => Standing::Enumerator(n),
        Standing::Untold => Standing::Untold,
        Standing::NoBase => Standing::Untold,
        Standing::Enumeration(_) => Standing::Untold,
    }
}

fn referenced(t: &StType) -> Standing<'_>
    ensures { standing result ≡ places.referenced t.now }
{
    match t {
        StType::Reference(c) => Standing::Instance(*c),
        _ => Standing::Untold,
    }
}

/// What `^` leads to: THIS^ is THIS, SUPER^ is SUPER.
pub fn dereferenced(b: Standing<'_>) -> Standing<'_>
    ensures { standing result ≡ places.dereferenced (standing b.entry) }
{
    match b {
        Standing::Value(t) => referenced(t),
        Standing::Own(c) => Standing::Own(c),
        Standing::NoBase => Standing::NoBase,
        Standing::Instance(_) => Standing::Untold,
        Standing::Enumerator(_) => Standing::Untold,
        Standing::Untold => Standing::Untold,
        Standing::Enumeration(_) => Standing::Untold,
    }
}

fn is_reference_to_class(t: &StType) -> bool
    ensures { result ≡ places.is_reference_to_class t.now }
{
    match t {
        StType::Reference(_) => true,
        _ => false,
    }
}

/// `^` behind what is no reference to a class.
pub fn dereference_fault(line: u32, b: Standing<'_>) -> Option<(Code, u32)>
    ensures { result ≡ least (places.dereference_of_no_reference line (standing b.entry)) }
{
    match b {
        Standing::Value(t) => when(!is_reference_to_class(t), Code::E07, line),
        Standing::Instance(_) => at(Code::E07, line),
        Standing::Enumerator(_) => at(Code::E07, line),
        Standing::Own(_) => None,
        Standing::NoBase => None,
        Standing::Untold => None,
        Standing::Enumeration(_) => None,
    }
}

fn element(t: &StType) -> Standing<'_>
    ensures { places.standing_type (standing result) ≡ kinds.element_type t.now }
{
    match element_type(t) {
        Some(of) => Standing::Value(of),
        None => Standing::Untold,
    }
}

/// What an index leads to.
pub fn element_of(b: Standing<'_>) -> Standing<'_>
    ensures { places.standing_type (standing result) ≡ option_and_then kinds.element_type (places.standing_type (standing b.entry)) }
{
    match b {
        Standing::Value(t) => element(t),
        Standing::Instance(_) => Standing::Untold,
        Standing::Own(_) => Standing::Untold,
        Standing::Enumerator(_) => Standing::Untold,
        Standing::Untold => Standing::Untold,
        Standing::NoBase => Standing::Untold,
        Standing::Enumeration(_) => Standing::Untold,
    }
}

/// An index behind what is no array; nothing where the type cannot be told.
pub fn index_fault(line: u32, b: Standing<'_>) -> Option<(Code, u32)>
    ensures { result ≡ least (places.index_on_no_array line (places.standing_type (standing b.entry))) }
{
    match b {
        Standing::Value(t) => when(element_type(t).is_none(), Code::E07, line),
        Standing::Instance(_) => at(Code::E07, line),
        Standing::Own(_) => at(Code::E07, line),
        Standing::Enumerator(_) => at(Code::E07, line),
        Standing::Untold => None,
        Standing::NoBase => None,
        Standing::Enumeration(_) => None,
    }
}

/// SUPER without a base.
pub fn super_fault(line: u32, b: Standing<'_>) -> Option<(Code, u32)>
    ensures { result ≡ least (places.super_without_base line (standing b.entry)) }
{
    when(is_no_base(b), Code::E07, line)
}

fn is_no_base(b: Standing<'_>) -> bool
    ensures { result ≡ places.is_no_base (standing b.entry) }
{
    match b {
        Standing::NoBase => true,
        _ => false,
    }
}

/// Whether it is told what stands there.
pub fn is_told(b: Standing<'_>) -> bool
    ensures { (s : AScope) → result ≡ places.is_told s (standing b.entry) }
{
    match b {
        Standing::Untold => false,
        _ => true,
    }
}

/// Whether it is an instance, or an array that holds instances.
#[tactic(auto, using(st_rules::specs::Kinds::instance_views))]
pub fn holds(b: Standing<'_>) -> bool
    ensures { (s : AScope) → result ≡ places.holds_instances_if_told s (places.standing_type (standing b.entry)) }
{
    match b {
        Standing::Value(t) => holds_instances(t),
        Standing::Instance(_) => true,
        Standing::Own(_) => true,
        Standing::Enumerator(_) => false,
        Standing::Untold => false,
        Standing::NoBase => false,
        Standing::Enumeration(_) => false,
    }
}

/// What stands where a name behind `.` means this.
pub fn part_standing(p: Option<Part<'_>>) -> Standing<'_>
    ensures { standing result ≡ places.standing_of (places.part_type (parted p.entry)) }
{
    match p {
        Some(Part::Field(_, field)) => standing_of(&field.kind),
        Some(Part::Member(_, v)) => standing_of(&v.kind),
        Some(Part::Value(n, _)) => Standing::Enumerator(n),
        Some(Part::Method(_)) => Standing::Untold,
        Some(Part::Prototype(_)) => Standing::Untold,
        None => Standing::Untold,
    }
}
