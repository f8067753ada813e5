//! Types with too many steps of containment.

ghost use Rattle.std.specs.Prelude.{◌≡◌, ◌&&◌, ◌||◌, not, Some};
ghost use Rattle.plc_text.specs.declared.code.Code.TheVariants.{E16};
ghost use Rattle.st_types.specs.declared.st_type.StType.TheVariants as type;
ghost use Rattle.st_tree.specs.declared.type_spec.TypeSpec.{TypeSpec};
ghost use Rattle.st_rules.specs.Faults as faults;
ghost use Rattle.st_rules.specs.Faults.{least};
ghost use Rattle.st_rules.specs.Scope.{Scope};
ghost use Rattle.st_unit_rules.specs.declared_names.Declarations.{declarations};
ghost use Rattle.st_unit_rules.specs.declared_names.WrittenTypes.{type_written};
ghost use Rattle.st_unit_rules.specs.Cycles as cycles;
ghost use Rattle.st_unit_rules.specs.Limits as limits;
ghost use Rattle.check_limits.specs.type_sizes.Sizes.{Measures};
ghost use Rattle.check_limits.specs.limit_rules.Depths as depths;
ghost use Rattle.check_limits.specs.limit_rules.Private.Depths as own;

use crate::type_sizes::{TypeSizes, has_many_dimensions};
use declared_graph::DeclaredGraph;
use plc_text::Code;
use st_rules::when;
use st_tree::{SimpleSpec, TypeSpec};
use st_types::StType;

/// Where a type is written.
#[derive(Clone, Copy, Debug, PartialEq, Eq)]
pub enum Within {
    /// An entry of TYPE: 64 steps of containment may lead from its type.
    Entry,
    /// A variable of a class, a routine or a global, a parameter or a result: 64 steps, and it may have 64 dimensions.
    Variable,
    /// A variable of a program, whose instance is one step of containment from what its variables hold: 63 steps.
    Program,
}

/// Whether the written type is one that contains itself, or that leads to such a one.
fn is_endless(graph: &DeclaredGraph, spec: &TypeSpec<u32>) -> bool
    ensures { (s : Scope) → result ≡ limits.is_endless s (declarations graph.now.decls) spec.now }
{
    match &spec.element {
        SimpleSpec::Named(_, name) => match graph.type_place(name) {
            Some(place) => graph.leads_to_cycle(place),
            None => false,
        },
        SimpleSpec::Elementary(_, _) => false,
        SimpleSpec::Reference(_, _, _) => false,
    }
}

fn either(one: bool, other: bool) -> bool
    ensures { result ≡ (one || other) }
{
    one || other
}

/// Whether a type has more steps or dimensions than it may have there.
fn has_more(sizes: &TypeSizes, within: Within, kind: &StType) -> bool
    ensures { (s : Scope) → Measures sizes.now s → result ≡ own.has_more within s (Some kind.now) }
{
    match within {
        Within::Entry => sizes.is_too_deep(kind),
        Within::Variable => {
            let many = has_many_dimensions(kind);
            either(many, sizes.is_too_deep(kind))
        }
        Within::Program => sizes.is_too_deep_in_program(kind),
    }
}

/// The same of a type that may have been told.
fn told_has_more(sizes: &TypeSizes, within: Within, told: &Option<StType>) -> bool
    ensures { (s : Scope) → Measures sizes.now s → result ≡ own.has_more within s told.now }
{
    match told {
        Some(kind) => has_more(sizes, within, kind),
        None => false,
    }
}

fn is_bad(deep: bool, endless: bool) -> bool
    ensures { result ≡ (deep && not endless) }
{
    deep && !endless
}

/// E16 at the line, where a written type has too many steps of containment, or too many dimensions. `told` is what the type means, as
/// the scope tells it. What contains itself has no depth.
pub fn too_deep(
    sizes: &TypeSizes,
    graph: &DeclaredGraph,
    within: Within,
    line: u32,
    spec: &TypeSpec<u32>,
    told: &Option<StType>,
) -> Option<(Code, u32)>
    ensures { (s : Scope) → Measures sizes.now s → told.now ≡ type_written s spec.now
        → result ≡ least (depths.depth_faults within s (declarations graph.now.decls) line spec.now) }
{
    let deep = told_has_more(sizes, within, told);
    let endless = is_endless(graph, spec);
    when(is_bad(deep, endless), Code::E16, line)
}

/// E16 at the line, where the structure of that number, which is declared at that place, has too many steps of containment.
pub fn structure_too_deep(
    sizes: &TypeSizes,
    graph: &DeclaredGraph,
    line: u32,
    place: usize,
    number: u32,
) -> Option<(Code, u32)>
    ensures { (s : Scope) → Measures sizes.now s
        → result ≡ least (faults.when (limits.is_too_deep s (type.Structure number) && not (cycles.leads_to_cycle (declarations graph.now.decls) place)) E16 line) }
{
    let deep = sizes.is_too_deep(&StType::Structure(number));
    when(deep && !graph.leads_to_cycle(place), Code::E16, line)
}

/// E16 at the line, where the class of that number, which is declared at that place, has too many steps of containment.
pub fn class_too_deep(
    sizes: &TypeSizes,
    graph: &DeclaredGraph,
    line: u32,
    place: usize,
    class: u32,
) -> Option<(Code, u32)>
    ensures { (s : Scope) → Measures sizes.now s
        → result ≡ least (faults.when (limits.is_too_deep s (type.Instance class) && not (cycles.leads_to_cycle (declarations graph.now.decls) place)) E16 line) }
{
    let deep = sizes.is_too_deep(&StType::Instance(class));
    when(deep && !graph.leads_to_cycle(place), Code::E16, line)
}
