//! `Type#Name`.

ghost use Rattle.std.specs.Prelude.{◌≡◌, IfOk};
ghost use Rattle.st_tree.specs.Expression as tree;
ghost use Rattle.st_rules.specs.Faults.{least};
ghost use Rattle.st_rules.specs.Scope.{type_qualifier};
ghost use Rattle.st_rules.specs.Expressions as expressions;
ghost use Rattle.name_resolution.specs.Meant.{qualifier};
ghost use Rattle.check_nodes.specs.Found.{Finds};
ghost use Rattle.check_nodes.specs.Private.Values as own;

use crate::found::Checked;
use check_places::note;
use name_resolution::{Qualifier, Scope};
use plc_text::{Code, NoMemory, Text};
use st_rules::{at, when};
use st_tree::{Expr, Target};
use st_types::StType;
use std::alloc::Global;

/// The number of the enumeration, and of its value of the name.
#[tactic(auto, unfolding(st_rules::specs::Expressions::enumerator_type, st_rules::specs::Expressions::note_of_value))]
fn value_found(s: &Scope<'_>, before: Qualifier, name: &Text) -> Option<(u32, u32)>
    ensures types { own.value_type result ≡ expressions.enumerator_type s.now (qualifier before) name.now }
    ensures targets { own.value_target result ≡ expressions.note_of_value s.now (qualifier before) name.now }
{
    match before {
        Qualifier::Values(n) => match s.value_of(n, name) {
            Some(k) => Some((n, k)),
            None => None,
        },
        Qualifier::Untold => None,
        Qualifier::Nothing => None,
    }
}

fn value_type(found: Option<(u32, u32)>) -> Option<StType>
    ensures { result ≡ own.value_type found }
{
    match found {
        Some((n, _)) => Some(StType::Enumeration(n)),
        None => None,
    }
}

fn value_target(found: Option<(u32, u32)>) -> Target
    ensures { result ≡ own.value_target found }
{
    match found {
        Some((_, k)) => Target::Enumerator(k),
        None => Target::Nothing,
    }
}

/// No enumeration before `#`, or no value of it behind.
#[tactic(auto, unfolding(st_rules::specs::Expressions::enumerator_not_found))]
fn value_fault(
    s: &Scope<'_>,
    line: u32,
    name_line: u32,
    before: Qualifier,
    name: &Text,
) -> Option<(Code, u32)>
    ensures { result ≡ least (expressions.enumerator_not_found s.now line name_line (qualifier before) name.now) }
{
    match before {
        Qualifier::Values(n) => when(s.value_of(n, name).is_none(), Code::E05, name_line),
        Qualifier::Untold => None,
        Qualifier::Nothing => at(Code::E05, line),
    }
}

/// `Type#Name`, with the line of the name.
#[tactic(auto, using(crate::proofs::Views::enumerator_view))]
pub fn enumerator(
    alloc: Global,
    s: &Scope<'_>,
    line: u32,
    type_name: &Text,
    name_line: u32,
    name: &Text,
) -> Result<Checked, NoMemory>
    ensures { IfOk result (λ c. let q = type_qualifier s.now type_name.now in
        Finds c (expressions.enumerator_type s.now q name.now) (expressions.enumerator_not_found s.now line name_line q name.now)
        (tree.Enumerator (expressions.note line (expressions.enumerator_type s.now q name.now) (expressions.note_of_value s.now q name.now)) type_name.now
        (expressions.note name_line (expressions.enumerator_type s.now q name.now) (expressions.note_of_value s.now q name.now)) name.now)) }
{
    let before = s.type_qualifier(type_name);
    let found = value_found(s, before, name);
    let told = value_type(found);
    let least = value_fault(s, line, name_line, before, name);
    let target = value_target(found);
    let outer = note(line, value_type(found), target);
    let inner = note(name_line, value_type(found), target);
    let type_name = Text::copy(alloc, type_name.as_str())?;
    let name = Text::copy(alloc, name.as_str())?;
    Ok(Checked {
        told,
        least,
        tree: Expr::Enumerator(outer, type_name, inner, name),
    })
}
