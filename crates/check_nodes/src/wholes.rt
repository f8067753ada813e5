//! Places as expressions, from what is found out about their parts.

ghost use Rattle.std.specs.Prelude.{◌≡◌, IfOk, option_and_then};
ghost use Rattle.st_tree.specs.Expression.{selectors_of};
ghost use Rattle.st_rules.specs.Faults.{least};
ghost use Rattle.st_rules.specs.Places as places;
ghost use Rattle.st_rules.specs.Expressions as expressions;
ghost use Rattle.check_places.specs.Standing.{standing};
ghost use Rattle.check_nodes.specs.Wholes.{root_part, Begins, Wholes, Refers};

use crate::along::Along;
use crate::found::{Checked, noted};
use check_calls::called_root_fault;
use check_places::{
    Standing, note_of, placed, root_fault, root_line, standing_type, whole_fault, whole_target,
};
use name_resolution::Scope;
use plc_text::{Code, NoMemory};
use st_rules::{at, earlier, when};
use st_tree::{Expr, Note, Place, Root, Selector};
use st_types::StType;
use std::alloc::Global;

/// What is found out about a place: the least rule that its root and its selectors break, and its typed tree.
pub struct CheckedPlace {
    pub least: Option<(Code, u32)>,
    pub place: Place<Note>,
}

// By hand, so that a drop is one call: a derived one is written out wherever a `?` may need it.
impl Drop for CheckedPlace {
    fn drop(self) {
        drop(self.into_place());
    }
}

impl CheckedPlace {
    /// The typed tree alone.
    pub fn into_place(self) -> Place<Note>
        ensures { result ≡ self.place }
    {
        let CheckedPlace { least: _, place } = self;
        place
    }
}

/// A place, from the least rule of what it begins with, that as a typed tree, and its selectors.
#[tactic(auto, using(crate::proofs::Views::whole_views))]
pub fn at_root(of_root: Option<(Code, u32)>, root: Root<Note>, along: Along<'_>) -> CheckedPlace
    ensures { Begins result of_root root along.entry }
{
    CheckedPlace {
        least: earlier(of_root, along.least),
        place: Place {
            root,
            selectors: along.selectors,
        },
    }
}

/// The rules of what a place begins with, where a call stands behind it or not.
pub fn place_root_fault(
    s: &Scope<'_>,
    called: bool,
    root: &Root<u32>,
    selectors: &[Selector<u32>],
) -> Option<(Code, u32)>
    ensures { result ≡ least (root_part s.now called root.now (selectors_of selectors.now)) }
{
    if called {
        called_root_fault(s, root, selectors)
    } else {
        root_fault(s, false, root, selectors)
    }
}

/// A place as an expression.
#[tactic(auto, using(crate::proofs::Views::place_view))]
pub fn whole(
    alloc: Global,
    s: &Scope<'_>,
    line: u32,
    root: &Root<u32>,
    selectors: &[Selector<u32>],
    x: CheckedPlace,
) -> Result<Checked, NoMemory>
    ensures { IfOk result (λ c. Wholes c s.now line root.now (selectors_of selectors.now) x) }
{
    let b = placed(s, root, selectors);
    let told = standing_type(alloc, b)?;
    let note = note_of(alloc, line, b, whole_target(s, root, selectors))?;
    let own = whole_fault(s, root, selectors);
    Ok(Checked {
        told,
        least: earlier(x.least, own),
        tree: Expr::Place(note, x.into_place()),
    })
}

fn reference_to(b: Standing<'_>) -> Option<StType>
    ensures { result ≡ option_and_then expressions.reference_to (places.standing_type (standing b.entry)) }
{
    match b {
        Standing::Value(t) => referring(t),
        Standing::Instance(c) => Some(StType::Reference(c)),
        Standing::Own(c) => Some(StType::Reference(c)),
        Standing::Enumerator(_) => None,
        Standing::Untold => None,
        Standing::NoBase => None,
        Standing::Enumeration(_) => None,
    }
}

fn referring(t: &StType) -> Option<StType>
    ensures { result ≡ expressions.reference_to t.now }
{
    match t {
        StType::Instance(c) => Some(StType::Reference(*c)),
        _ => None,
    }
}

/// REF of what is no instance.
#[tactic(auto, unfolding(st_rules::specs::Expressions::reference_to_no_instance))]
fn reference_fault(line: u32, b: Standing<'_>) -> Option<(Code, u32)>
    ensures { result ≡ least (expressions.reference_to_no_instance line (places.standing_type (standing b.entry))) }
{
    match b {
        Standing::Value(t) => when(referring(t).is_none(), Code::E07, line),
        Standing::Enumerator(_) => at(Code::E07, line),
        Standing::Instance(_) => None,
        Standing::Own(_) => None,
        Standing::Untold => None,
        Standing::NoBase => None,
        Standing::Enumeration(_) => None,
    }
}

/// REF of a place.
#[tactic(auto, using(crate::proofs::Views::reference_view))]
pub fn reference(
    alloc: Global,
    s: &Scope<'_>,
    line: u32,
    root: &Root<u32>,
    selectors: &[Selector<u32>],
    x: CheckedPlace,
) -> Result<Checked, NoMemory>
    ensures { IfOk result (λ c. Refers c s.now line root.now (selectors_of selectors.now) x) }
{
    let b = placed(s, root, selectors);
    let told = reference_to(b);
    let note = noted(alloc, line, &told)?;
    let of_whole = whole_fault(s, root, selectors);
    let own = reference_fault(root_line(root), b);
    Ok(Checked {
        told,
        least: earlier(earlier(x.least, of_whole), own),
        tree: Expr::Ref(note, x.into_place()),
    })
}
