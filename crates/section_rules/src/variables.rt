//! Types that variables may have.

ghost use Rattle.std.specs.Prelude.{◌≡◌, Some, option_and_then, option_map};
ghost use Rattle.st_tree.specs.Initial.{initial_of};
ghost use Rattle.st_rules.specs.Faults.{least};
ghost use Rattle.st_unit_rules.specs.declared_names.Variables as variables;
ghost use Rattle.st_unit_rules.specs.VariableRules as rules;
ghost use Rattle.section_rules.specs.Variables.{classes_of, is_misplaced, makes_abstract, is_bad_constant};

use plc_text::Code;
use st_operators::holds_instances;
use st_rules::{is_abstract, when};
use st_tree::{ClassDecl, Init, SectionSort};
use st_types::StType;

fn holds_instances_told(kind: &Option<StType>) -> bool
    ensures { result ≡ rules.holds_instances_told kind.now }
{
    match kind {
        Some(kind) => holds_instances(kind),
        None => false,
    }
}

fn is_misplaced(may: bool, kind: &Option<StType>) -> bool
    ensures { result ≡ is_misplaced may kind.now }
{
    !may && holds_instances_told(kind)
}

/// E07 where a type is one of instances, or of arrays that hold some, and may not be.
pub fn instance_out_of_place(line: u32, may: bool, kind: &Option<StType>) -> Option<(Code, u32)>
    ensures { result ≡ least (rules.instance_out_of_place line may kind.now) }
{
    when(is_misplaced(may, kind), Code::E07, line)
}

/// The class of an instance, or of the instances that an array holds.
#[cycle(held)]
#[tactic(auto, using(crate::proofs::HeldLaws::held_views))]
fn class_held(kind: &StType) -> Option<u32>
    ensures { result ≡ rules.class_held kind.now }
{
    match kind {
        StType::Instance(class) => Some(*class),
        StType::Array(_, _, of) => class_held(of.get()),
        StType::Elementary(_) => None,
        StType::Enumeration(_) => None,
        StType::Structure(_) => None,
        StType::Reference(_) => None,
        StType::Interface(_) => None,
    }
}

fn class_told(kind: &Option<StType>) -> Option<u32>
    ensures { result ≡ option_and_then rules.class_held kind.now }
{
    match kind {
        Some(kind) => class_held(kind),
        None => None,
    }
}

#[tactic(auto, using(crate::proofs::HeldLaws::class_there))]
fn is_abstract_at(classes: &[&ClassDecl<u32>], class: u32) -> bool
    ensures { result ≡ rules.is_abstract_class (classes_of classes.now) (Some class) }
{
    match classes.get(class as usize) {
        Some(class) => is_abstract(class.modifiers.as_slice()),
        None => false,
    }
}

fn is_abstract_class(classes: &[&ClassDecl<u32>], class: Option<u32>) -> bool
    ensures { result ≡ rules.is_abstract_class (classes_of classes.now) class }
{
    match class {
        Some(class) => is_abstract_at(classes, class),
        None => false,
    }
}

fn makes_instances(sort: SectionSort) -> bool
    ensures { result ≡ rules.makes_instances sort }
{
    matches!(sort, SectionSort::Var | SectionSort::Global)
}

fn makes_abstract(classes: &[&ClassDecl<u32>], sort: SectionSort, kind: &Option<StType>) -> bool
    ensures { result ≡ makes_abstract (classes_of classes.now) sort kind.now }
{
    makes_instances(sort) && is_abstract_class(classes, class_told(kind))
}

/// E11 where a variable is an instance of an abstract class, or an array that holds some. The classes are those of the unit.
pub fn instance_of_abstract_class(
    line: u32,
    classes: &[&ClassDecl<u32>],
    sort: SectionSort,
    kind: &Option<StType>,
) -> Option<(Code, u32)>
    ensures { result ≡ least (rules.instance_of_abstract_class line (classes_of classes.now) sort kind.now) }
{
    when(makes_abstract(classes, sort, kind), Code::E11, line)
}

fn may_be_constant(kind: &StType) -> bool
    ensures { result ≡ variables.may_be_constant kind.now }
{
    matches!(kind, StType::Elementary(_) | StType::Enumeration(_))
}

fn is_no_constant_type(kind: &Option<StType>) -> bool
    ensures { result ≡ rules.is_no_constant_type kind.now }
{
    match kind {
        Some(kind) => !may_be_constant(kind),
        None => false,
    }
}

fn is_bad_constant(kind: &Option<StType>, initial: &Option<Init<u32>>) -> bool
    ensures { result ≡ is_bad_constant kind.now (option_map initial_of initial.now) }
{
    is_no_constant_type(kind) || initial.is_none()
}

/// E07 where a constant is neither elementary nor of an enumeration, or has no initial value.
pub fn constant_fault(
    line: u32,
    kind: &Option<StType>,
    initial: &Option<Init<u32>>,
) -> Option<(Code, u32)>
    ensures { result ≡ least (rules.bad_constant line kind.now (option_map initial_of initial.now)) }
{
    when(is_bad_constant(kind, initial), Code::E07, line)
}
