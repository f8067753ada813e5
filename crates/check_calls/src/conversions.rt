//! Implicit conversion: values that may be assigned, and places that may be bound (IEC 61131-3:2013, 6.6.1.7).

ghost use Rattle.std.specs.Prelude.{◌≡◌};
ghost use Rattle.st_rules.specs.Faults.{least};
ghost use Rattle.st_types.specs.declared.st_type.StType.TheVariants as type;
ghost use Rattle.st_rules.specs.Types.{same_type};
ghost use Rattle.st_rules.specs.Kinds as kinds;
ghost use Rattle.st_rules.specs.Calls as calls;

use name_resolution::Scope;
use plc_text::Code;
use st_rules::{Asked, when};
use st_types::{Elem, StType};

/// Whether a value of the first kind may be taken in the second.
fn reaches(from: Elem, to: Elem) -> bool
    ensures { result ≡ kinds.reaches from to }
{
    st_types::reaches(from, to)
}

/// Whether both are one type.
fn same_type(a: &StType, b: &StType) -> bool
    ensures { result ≡ same_type a.now b.now }
{
    a.is_same(b)
}

fn refers(s: &Scope<'_>, class: u32, other: &StType) -> bool
    ensures { result ≡ kinds.converts s.now.classes s.now.interfaces (type.Reference class) other.now }
{
    match other {
        StType::Reference(_) => s.conforms(class, other),
        StType::Interface(_) => s.conforms(class, other),
        _ => false,
    }
}

fn implements(s: &Scope<'_>, class: u32, other: &StType) -> bool
    ensures { result ≡ kinds.converts s.now.classes s.now.interfaces (type.Instance class) other.now }
{
    match other {
        StType::Interface(_) => s.conforms(class, other),
        _ => false,
    }
}

fn converts(s: &Scope<'_>, t: &StType, u: &StType) -> bool
    ensures { result ≡ kinds.converts s.now.classes s.now.interfaces t.now u.now }
{
    match t {
        StType::Elementary(a) => match u {
            StType::Elementary(b) => reaches(*a, *b),
            _ => false,
        },
        StType::Reference(c) => refers(s, *c, u),
        StType::Instance(c) => implements(s, *c, u),
        StType::Interface(j) => match u {
            StType::Interface(i) => s.extends(*j, *i),
            _ => false,
        },
        _ => false,
    }
}

/// Whether a value of the first type may be assigned to a variable of the second.
#[tactic(auto, unfolding(st_rules::specs::Kinds::is_assignable))]
pub fn is_assignable(s: &Scope<'_>, t: &StType, u: &StType) -> bool
    ensures { result ≡ kinds.is_assignable s.now.classes s.now.interfaces t.now u.now }
{
    same_type(t, u) || converts(s, t, u)
}

fn is_narrower_instance(s: &Scope<'_>, t: &StType, u: &StType) -> bool
    ensures { result ≡ kinds.narrower_instance s.now.classes s.now.interfaces t.now u.now }
{
    match t {
        StType::Instance(c) => match u {
            StType::Instance(_) => s.conforms(*c, u),
            _ => false,
        },
        _ => false,
    }
}

/// Whether a place of the first type may be bound to an in-out of the second.
#[tactic(auto, unfolding(st_rules::specs::Kinds::is_bindable))]
pub fn is_bindable(s: &Scope<'_>, t: &StType, u: &StType) -> bool
    ensures { result ≡ kinds.is_bindable s.now.classes s.now.interfaces t.now u.now }
{
    same_type(t, u) || is_narrower_instance(s, t, u)
}

/// A value that is not to be assigned where it stands.
#[tactic(auto, unfolding(st_rules::specs::Calls::value_unsuited))]
pub fn value_fault(
    s: &Scope<'_>,
    line: u32,
    asked: &Asked,
    t: &Option<StType>,
) -> Option<(Code, u32)>
    ensures { result ≡ least (calls.value_unsuited s.now line asked.now t.now) }
{
    match asked {
        Asked::Wanted(u) => match t {
            Some(t) => when(!is_assignable(s, t, u), Code::E07, line),
            None => None,
        },
        Asked::Anything => None,
        Asked::Untold => None,
    }
}

/// A place that is not of the type of the in-out to which it is bound.
pub fn binding_fault(
    s: &Scope<'_>,
    line: u32,
    parameter: &Option<StType>,
    t: &Option<StType>,
) -> Option<(Code, u32)>
    ensures { result ≡ least (calls.bound_to_another_type s.now line parameter.now t.now) }
{
    match parameter {
        Some(u) => match t {
            Some(t) => when(!is_bindable(s, t, u), Code::E07, line),
            None => None,
        },
        None => None,
    }
}

/// An output that is not to be assigned to the place that takes it.
#[tactic(auto, unfolding(st_rules::specs::Calls::output_unsuited))]
pub fn output_fault(
    s: &Scope<'_>,
    line: u32,
    parameter: &Option<StType>,
    t: &Option<StType>,
) -> Option<(Code, u32)>
    ensures { result ≡ least (calls.output_unsuited s.now line parameter.now t.now) }
{
    match parameter {
        Some(t1) => match t {
            Some(u) => when(!is_assignable(s, t1, u), Code::E07, line),
            None => None,
        },
        None => None,
    }
}
