//! From where names may be used: E10 of names.

ghost use Rattle.std.specs.Prelude.{◌≡◌, ◌++◌};
ghost use Rattle.std.specs.Option.{option_copied};
ghost use Rattle.st_rules.specs.Faults.{least};
ghost use Rattle.st_rules.specs.Scope as scope;
ghost use Rattle.st_rules.specs.Places as places;
ghost use Rattle.name_resolution.specs.Meant.{meant};
ghost use Rattle.check_places.specs.Standing.{parted};

use crate::standing::Part;
use name_resolution::{Meant, Scope};
use plc_text::Code;
use st_rules::{DeclaredRoutine, DeclaredVariable, MethodId, earlier, is_body_sort, when};

fn has_access(s: &Scope<'_>, routine: Option<&DeclaredRoutine>, class: u32) -> bool
    ensures { result ≡ places.access_of s.now (option_copied routine.entry) class }
{
    match routine {
        Some(r) => s.may_use(r.access, class),
        None => true,
    }
}

/// A PRIVATE variable outside its class, or a PROTECTED one outside its class and those derived.
pub fn member_out_of_access(
    s: &Scope<'_>,
    line: u32,
    class: u32,
    v: &DeclaredVariable,
) -> Option<(Code, u32)>
    ensures { result ≡ least (places.member_out_of_access s.now line class v.now) }
{
    when(!s.may_use(v.access, class), Code::E10, line)
}

fn may_call(s: &Scope<'_>, id: MethodId) -> bool
    ensures { result ≡ places.access_of s.now (scope.method_routine s.now id) id.class }
{
    has_access(s, s.method_routine(id), id.class)
}

/// The same of a method.
pub fn method_out_of_access(s: &Scope<'_>, line: u32, id: MethodId) -> Option<(Code, u32)>
    ensures { result ≡ least (places.method_out_of_access s.now line id) }
{
    when(!may_call(s, id), Code::E10, line)
}

fn is_of_body(v: &DeclaredVariable) -> bool
    ensures { result ≡ scope.is_of_body v.now }
{
    is_body_sort(v.sort) && !v.constant
}

/// An in-out or a temporary variable of the body in a method.
fn body_variable_in_a_method(s: &Scope<'_>, line: u32, v: &DeclaredVariable) -> Option<(Code, u32)>
    ensures { result ≡ least (places.body_variable_in_a_method s.now line v.now) }
{
    when(s.in_method() && is_of_body(v), Code::E10, line)
}

#[tactic(auto, using(st_rules::proofs::FaultLaws::faults))]
fn own_variable_fault(
    s: &Scope<'_>,
    line: u32,
    class: u32,
    v: &DeclaredVariable,
) -> Option<(Code, u32)>
    ensures { result ≡ least (places.member_out_of_access s.now line class v.now ++ places.body_variable_in_a_method s.now line v.now) }
{
    earlier(
        member_out_of_access(s, line, class, v),
        body_variable_in_a_method(s, line, v),
    )
}

/// A bare name that may not be used here.
pub fn name_out_of_access(s: &Scope<'_>, line: u32, m: Option<Meant<'_>>) -> Option<(Code, u32)>
    ensures { result ≡ least (places.name_out_of_access s.now line (meant m.entry)) }
{
    match m {
        Some(Meant::Variable(class, v)) => match class {
            Some(d) => own_variable_fault(s, line, d, v),
            None => None,
        },
        Some(Meant::Method(id)) => method_out_of_access(s, line, id),
        Some(Meant::Function(_, _)) => None,
        Some(Meant::Enumerator(_, _)) => None,
        None => None,
    }
}

/// A name behind `.` that may not be used here.
pub fn part_out_of_access(s: &Scope<'_>, line: u32, p: Option<Part<'_>>) -> Option<(Code, u32)>
    ensures { result ≡ least (places.part_out_of_access s.now line (parted p.entry)) }
{
    match p {
        Some(Part::Member(d, v)) => member_out_of_access(s, line, d, v),
        Some(Part::Method(id)) => method_out_of_access(s, line, id),
        Some(Part::Field(_, _)) => None,
        Some(Part::Prototype(_)) => None,
        Some(Part::Value(_, _)) => None,
        None => None,
    }
}
