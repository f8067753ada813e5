//! What the types of a program are, by their numbers.

ghost use Rattle.std.specs.Prelude.{◌≡◌, ◌+◌, length, option_map, is_some, slice_get, IfOk};
ghost use Rattle.st_values.specs.Program.{class_at};
ghost use Rattle.st_values.specs.View.{program_of};
ghost use Rattle.initial_trees.specs.Private.Kinds.{is_enumeration_at, structure_name_at};

use plc_text::Text;
use st_tree::{Program, TypeBody};

/// Whether the type of this number is an enumeration.
pub fn is_enumeration(program: &Program, n: u32) -> bool
    ensures { result ≡ is_enumeration_at (program_of program.now) n }
{
    match program.types.get(n as usize) {
        Some(decl) => match &decl.body {
            TypeBody::Enumeration(_) => true,
            TypeBody::Alias(_) => false,
            TypeBody::Structure(_) => false,
        },
        None => false,
    }
}

/// The name of the structure of this number.
pub fn structure_name(program: &Program, n: u32) -> Option<&Text>
    ensures { option_map (λ t. t.now) result ≡ structure_name_at (program_of program.now) n }
{
    match program.types.get(n as usize) {
        Some(decl) => match &decl.body {
            TypeBody::Structure(_) => Some(&decl.name.text),
            TypeBody::Alias(_) => None,
            TypeBody::Enumeration(_) => None,
        },
        None => None,
    }
}

/// The name of a class, or of a program, whose numbers stand behind the classes.
#[tactic(auto, using(crate::proofs::KindLaws::class_named, crate::proofs::KindLaws::program_named))]
pub fn class_name(program: &Program, c: u32) -> Option<&Text>
    ensures { option_map (λ t. t.now) result ≡ option_map (λ k. k.name) (class_at (program_of program.now) c) }
{
    let c = c as usize;
    let count = program.classes.len();
    if c < count {
        match program.classes.get(c) {
            Some(class) => Some(&class.name.text),
            None => None,
        }
    } else {
        match program.programs.get(c - count) {
            Some(program) => Some(&program.name.text),
            None => None,
        }
    }
}

/// Whether there is an interface of this number.
#[tactic(auto, using(crate::proofs::KindLaws::interface_is_there))]
pub fn has_interface(program: &Program, i: u32) -> bool
    ensures { result ≡ is_some (slice_get (program_of program.now).interfaces i) }
{
    match program.interfaces.get(i as usize) {
        Some(_) => true,
        None => false,
    }
}
