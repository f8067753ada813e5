//! The rules of what a place begins with, and of a place as a whole.

ghost use Rattle.std.specs.Prelude.{◌≡◌};
ghost use Rattle.std.specs.Option.{is_none};
ghost use Rattle.st_tree.specs.Expression.{selectors_of};
ghost use Rattle.st_rules.specs.Faults.{least};
ghost use Rattle.st_rules.specs.Scope.{Scope as AScope};
ghost use Rattle.st_rules.specs.Places as places;
ghost use Rattle.name_resolution.specs.Meant.{meant, qualifier};
ghost use Rattle.check_places.specs.Private.Places as own;

use crate::access::name_out_of_access;
use crate::places::{begins_with_field, placed};
use crate::standing::super_fault;
use name_resolution::{Meant, Qualifier, Scope};
use plc_text::{Code, Text};
use st_rules::{earlier, when};
use st_tree::{Root, Selector};

/// The line of the first token of a place.
pub fn root_line(root: &Root<u32>) -> u32
    ensures { result ≡ places.root_line root.now }
{
    match root {
        Root::Name(line, _) => *line,
        Root::This(line) => *line,
        Root::Super(line) => *line,
    }
}

fn is_no_variable_name(m: Option<Meant<'_>>) -> bool
    ensures { (s : AScope) → result ≡ places.is_no_variable_name s (meant m.entry) }
{
    match m {
        Some(Meant::Variable(_, _)) => false,
        Some(Meant::Enumerator(_, _)) => false,
        Some(Meant::Method(_)) => true,
        Some(Meant::Function(_, _)) => true,
        None => true,
    }
}

fn is_nothing(m: Option<Meant<'_>>) -> bool
    ensures { result ≡ is_none (meant m.entry) }
{
    match m {
        Some(_) => false,
        None => true,
    }
}

#[tactic(auto, using(st_rules::proofs::FaultLaws::faults))]
fn name_fault(s: &Scope<'_>, line: u32, called: bool, m: Option<Meant<'_>>) -> Option<(Code, u32)>
    ensures { result ≡ least (places.name_faults s.now line called (meant m.entry)) }
{
    earlier(
        name_not_found(line, called, m),
        name_out_of_access(s, line, m),
    )
}

fn name_not_found(line: u32, called: bool, m: Option<Meant<'_>>) -> Option<(Code, u32)>
    ensures { (s : AScope) → result ≡ least (places.name_not_found s line called (meant m.entry)) }
{
    if called {
        when(is_nothing(m), Code::E05, line)
    } else {
        when(is_no_variable_name(m), Code::E05, line)
    }
}

fn qualified_fault(s: &Scope<'_>, line: u32, before: Qualifier, name: &Text) -> Option<(Code, u32)>
    ensures { result ≡ least (places.qualified_faults s.now line (qualifier before) name.now) }
{
    match before {
        Qualifier::Values(_) => None,
        Qualifier::Untold => None,
        Qualifier::Nothing => name_fault(s, line, false, s.sought(false, name)),
    }
}

/// THIS or SUPER outside of a class.
fn instance_fault(s: &Scope<'_>, line: u32) -> Option<(Code, u32)>
    ensures { result ≡ least (places.instance_outside_a_class s.now line) }
{
    when(s.class().is_none(), Code::E10, line)
}

/// Whether no selector stands.
pub fn is_bare(selectors: &[Selector<u32>]) -> bool
    ensures { result ≡ own.is_bare (selectors_of selectors.now) }
{
    match selectors.first() {
        Some(_) => false,
        None => true,
    }
}

/// The rules of what a place begins with, where a call stands behind it or not.
#[tactic(auto, using(crate::proofs::RootLaws::roots))]
pub fn root_fault(
    s: &Scope<'_>,
    called: bool,
    root: &Root<u32>,
    selectors: &[Selector<u32>],
) -> Option<(Code, u32)>
    ensures { result ≡ least (places.root_faults s.now called root.now (selectors_of selectors.now)) }
{
    match root {
        Root::This(line) => instance_fault(s, *line),
        Root::Super(line) => instance_fault(s, *line),
        Root::Name(line, name) => {
            if is_bare(selectors) {
                name_fault(s, *line, called, s.sought(called, name))
            } else if begins_with_field(selectors) {
                qualified_fault(s, *line, s.dot_qualifier(name), name)
            } else {
                name_fault(s, *line, false, s.sought(false, name))
            }
        }
    }
}

/// More than 64 selectors.
#[tactic(auto, using(crate::proofs::RootLaws::count_is), unfolding(st_rules::specs::Places::too_many_selectors))]
pub fn selectors_fault(s: &Scope<'_>, line: u32, selectors: &[Selector<u32>]) -> Option<(Code, u32)>
    ensures { result ≡ least (places.too_many_selectors s.now line (selectors_of selectors.now)) }
{
    when(selectors.len() > 64, Code::E16, line)
}

/// The rules of a place as a whole, where no call stands behind it.
#[tactic(auto, using(st_rules::proofs::FaultLaws::faults), unfolding(st_rules::specs::Places::whole_faults))]
pub fn whole_fault(
    s: &Scope<'_>,
    root: &Root<u32>,
    selectors: &[Selector<u32>],
) -> Option<(Code, u32)>
    ensures { result ≡ least (places.whole_faults s.now root.now (selectors_of selectors.now)) }
{
    let line = root_line(root);
    earlier(
        super_fault(line, placed(s, root, selectors)),
        selectors_fault(s, line, selectors),
    )
}

/// Whether nothing stands behind it.
pub fn is_last(behind: &[Selector<u32>]) -> bool
    ensures { result ≡ places.is_last (selectors_of behind.now) }
{
    match behind.first() {
        Some(_) => false,
        None => true,
    }
}
