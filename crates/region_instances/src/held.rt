//! The class or structure of which a type holds values.

ghost use Rattle.std.specs.Prelude.{◌≡◌, ◌+◌, ◌≤◌, option_and_then};
ghost use Rattle.region_instances.specs.Private.Held as words;

use st_types::StType;

/// What a type holds: instances of a class, or values of a structure.
#[derive(Clone, Copy)]
pub enum Held {
    Class(u32),
    Structure(u32),
}

/// How many classes and how many types a graph has.
#[derive(Clone, Copy)]
pub struct Counts {
    pub classes: u32,
    pub structures: u32,
}

/// What a type is or, of an array that has elements, what its elements hold.
#[cycle(held)]
#[tactic(auto, using(crate::proofs::HeldLaws::held_views))]
fn what_holds(kind: &StType) -> Option<Held>
    ensures { result ≡ words.held_of kind.now }
{
    match kind {
        StType::Instance(class) => Some(Held::Class(*class)),
        StType::Structure(number) => Some(Held::Structure(*number)),
        StType::Array(low, high, of) => {
            if low <= high {
                what_holds(of.get())
            } else {
                None
            }
        }
        StType::Elementary(_) => None,
        StType::Enumeration(_) => None,
        StType::Reference(_) => None,
        StType::Interface(_) => None,
    }
}

/// The node of a class or of a structure, where there is one: classes first.
fn node(counts: Counts, held: Held) -> Option<u32>
    requires { counts.classes + counts.structures ≤ 4294967295 }
    ensures { result ≡ words.node counts held }
{
    match held {
        Held::Class(class) => {
            if class < counts.classes {
                Some(class)
            } else {
                None
            }
        }
        Held::Structure(number) => {
            if number < counts.structures {
                Some(counts.classes + number)
            } else {
                None
            }
        }
    }
}

/// The node of what a type holds.
pub fn node_of(counts: Counts, kind: &StType) -> Option<u32>
    requires { counts.classes + counts.structures ≤ 4294967295 }
    ensures { result ≡ words.node_of counts kind.now }
{
    match what_holds(kind) {
        Some(held) => node(counts, held),
        None => None,
    }
}
