//! The first place of each name.

ghost use Rattle.std.specs.Prelude.{◌≡◌, ◌∷◌, [], ◌++◌, ℕ, List, length, OnOk};
ghost use Rattle.class_rows.specs.Index.{Indexes};
ghost use Rattle.class_rows.specs.Private.Added.{IsAdded};

use plc_text::{NoMemory, Text};
use st_names::Names;
use std::alloc::Global;

/// Adds a name with a place, if the name is not there yet.
fn add(alloc: Global, names: &mut Names<u32>, name: &Text, place: u32) -> Result<(), NoMemory>
    ensures { OnOk result (IsAdded names.old name.now place names.new) }
{
    if names.find(name).is_some() {
        return Ok(());
    }
    let copy = Text::copy(alloc, name.as_str())?;
    match names.add(copy, place) {
        Ok(_) => Ok(()),
        Err(_) => Err(NoMemory),
    }
}

/// Takes a name at a place, if it is not there yet.
#[tactic(auto, using(class_rows::proofs::IndexLaws::indexes_added))]
pub fn note(alloc: Global, index: &mut Names<u32>, name: &Text, place: u32) -> Result<(), NoMemory>
    ensures { OnOk result ((names : List (List ℕ)) → Indexes index.old names → place ≡ length names → Indexes index.new (names ++ name.now ∷ [])) }
{
    add(alloc, index, name, place)
}
