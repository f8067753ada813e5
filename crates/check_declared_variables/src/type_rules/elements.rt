//! What the innermost array of a type is of.

ghost use Rattle.std.specs.Prelude.{◌≡◌, IfOk, ◌&&◌, not, option_and_then};
ghost use Rattle.std.specs.Option.{is_some};
ghost use Rattle.plc_text.specs.declared.code.Code.TheVariants.{E07};
ghost use Rattle.st_rules.specs.Expressions as expressions;
ghost use Rattle.st_rules.specs.Faults as faults;
ghost use Rattle.st_rules.specs.Faults.{least};
ghost use Rattle.st_tree.specs.declared.program.Target.TheVariants as targets;
ghost use Rattle.st_tree.specs.declared.type_spec.SimpleSpec.TheVariants as elements;
ghost use Rattle.st_unit_rules.specs.declared_names.WrittenTypes as written;
ghost use Rattle.check_declared_variables.specs.type_rules.Private.Elements.{ElementChecks, IsElementary, IsNamed, IsReference, is_instance_told};

use check_places::note;
use name_resolution::Scope;
use plc_text::{Code, NoMemory, Text};
use st_rules::{copied, earlier, when};
use st_tree::{Note, SimpleSpec, Target};
use st_types::{Elem, StType};
use std::alloc::Global;
use type_resolution::written_types::named_type;

/// What the innermost array is of, checked.
#[derive(Drop)]
pub struct CheckedElement {
    pub kind: Option<StType>,
    pub least: Option<(Code, u32)>,
    pub element: SimpleSpec<Note>,
}

/// A note with a type and nothing that is meant.
pub fn noted(alloc: Global, line: u32, kind: &Option<StType>) -> Result<Note, NoMemory>
    ensures { IfOk result (λ n. n ≡ expressions.note line kind.now targets.Nothing) }
{
    let kind = copied(alloc, kind)?;
    Ok(note(line, kind, Target::Nothing))
}

fn reference_to(kind: &Option<StType>) -> Option<StType>
    ensures { result ≡ option_and_then expressions.reference_to kind.now }
{
    match kind {
        Some(StType::Instance(class)) => Some(StType::Reference(*class)),
        Some(_) => None,
        None => None,
    }
}

fn is_instance(kind: &Option<StType>) -> bool
    ensures { result ≡ is_instance_told kind.now }
{
    match kind {
        Some(StType::Instance(_)) => true,
        Some(_) => false,
        None => false,
    }
}

/// Whether a type has the name.
fn is_found(s: &Scope<'_>, name: &Text) -> bool
    ensures { result ≡ is_some (written.type_declared s.now name.now) }
{
    s.type_named(name).is_some()
}

/// E07 where a type is found that is no class and no function block.
fn reference_fault(line: u32, found: bool, of: &Option<StType>) -> Option<(Code, u32)>
    ensures { result ≡ least (faults.when (found && not (is_instance_told of.now)) E07 line) }
{
    when(found && !is_instance(of), Code::E07, line)
}

/// E05 where no type has the name.
fn type_fault(line: u32, s: &Scope<'_>, name: &Text) -> Option<(Code, u32)>
    ensures { result ≡ least (written.type_not_found s.now line name.now) }
{
    when(s.type_named(name).is_none(), Code::E05, line)
}

fn elementary(line: u32, kind: Elem) -> CheckedElement
    ensures { IsElementary result line kind }
{
    CheckedElement {
        kind: Some(StType::Elementary(kind)),
        least: None,
        element: SimpleSpec::Elementary(
            note(line, Some(StType::Elementary(kind)), Target::Nothing),
            kind,
        ),
    }
}

fn named(alloc: Global, s: &Scope<'_>, line: u32, name: &Text) -> Result<CheckedElement, NoMemory>
    ensures { IfOk result (λ c. IsNamed c s.now line name.now) }
{
    let kind = named_type(alloc, s, name)?;
    let note = noted(alloc, line, &kind)?;
    let copy = Text::copy(alloc, name.as_str())?;
    Ok(CheckedElement {
        kind,
        least: type_fault(line, s, name),
        element: SimpleSpec::Named(note, copy),
    })
}

/// The typed tree of a reference of this type to this type of the name.
fn reference_tree(
    alloc: Global,
    line: u32,
    name_line: u32,
    kind: &Option<StType>,
    of: &Option<StType>,
    name: &Text,
) -> Result<SimpleSpec<Note>, NoMemory>
    ensures { IfOk result (λ e. e ≡ elements.Reference (expressions.note line kind.now targets.Nothing) (expressions.note name_line of.now targets.Nothing) name.now) }
{
    let copy = Text::copy(alloc, name.as_str())?;
    let note = noted(alloc, line, kind)?;
    let name_note = noted(alloc, name_line, of)?;
    Ok(SimpleSpec::Reference(note, name_note, copy))
}

fn reference(
    alloc: Global,
    s: &Scope<'_>,
    line: u32,
    name_line: u32,
    name: &Text,
) -> Result<CheckedElement, NoMemory>
    ensures { IfOk result (λ c. IsReference c s.now line name_line name.now) }
{
    let of = named_type(alloc, s, name)?;
    let kind = reference_to(&of);
    let element = reference_tree(alloc, line, name_line, &kind, &of, name)?;
    let other = reference_fault(name_line, is_found(s, name), &of);
    Ok(CheckedElement {
        kind,
        least: earlier(type_fault(name_line, s, name), other),
        element,
    })
}

/// Checks what the innermost array of a type is of.
pub fn check_element(
    alloc: Global,
    s: &Scope<'_>,
    element: &SimpleSpec<u32>,
) -> Result<CheckedElement, NoMemory>
    ensures { IfOk result (λ c. ElementChecks c s.now element.now) }
{
    match element {
        SimpleSpec::Elementary(line, kind) => Ok(elementary(*line, *kind)),
        SimpleSpec::Named(line, name) => {
            let c = named(alloc, s, *line, name)?;
            Ok(c)
        }
        SimpleSpec::Reference(line, name_line, name) => {
            let c = reference(alloc, s, *line, *name_line, name)?;
            Ok(c)
        }
    }
}
