//! Sets of names.

ghost use Rattle.std.specs.Prelude.{◌≡◌, ℕ, ◌||◌, List, OnOk};
ghost use Rattle.plc_text.specs.Words.{same};
ghost use Rattle.check_calls.specs.Private.Names.{is_in};

use plc_text::{NoMemory, Text};
use std::alloc::Global;
use std::collections::HashMap;

/// A set of names.
pub type NameSet = HashMap<Text, u32>;

pub fn has(names: &NameSet, name: &Text) -> bool
    ensures { result ≡ is_in names.now name.now }
{
    names.get(name).is_some()
}

pub fn add(alloc: Global, names: &mut NameSet, name: &Text) -> Result<(), NoMemory>
    ensures { OnOk result ((q : List ℕ) → is_in names.new q ≡ (same name.now q || is_in names.old q)) }
{
    let copy = Text::copy(alloc, name.as_str())?;
    names.insert(copy, 0)?;
    Ok(())
}
