//! Which calls were followed already.

ghost use Rattle.std.specs.Prelude.{◌≡◌, ℕ, true, false, List, Option, option_map, IfOk, OnOk};
ghost use Rattle.footprints.specs.reached_routines.Private.Asked.{AsksOne, is_asked};

use crate::reached_routines::conformers::Family;
use plc_text::{NoMemory, Text};
use std::alloc::Global;
use std::collections::HashSet;

/// The class or interface of the type on which is called, and the name of the method, or nothing for the body.
pub type Question = (Family, Option<Text>);

fn copied(alloc: Global, name: Option<&Text>) -> Result<Option<Text>, NoMemory>
    ensures { IfOk result (λ copy. copy ≡ option_map (λ n. n.now) name.entry) }
{
    match name {
        Some(name) => {
            let copy = Text::copy(alloc, name.as_str())?;
            Ok(Some(copy))
        }
        None => Ok(None),
    }
}

/// Adds a question; whether it is new.
pub fn ask(
    alloc: Global,
    asked: &mut HashSet<Question>,
    family: Family,
    name: Option<&Text>,
) -> Result<bool, NoMemory>
    ensures known { IfOk result (λ fresh. fresh ≡ false → is_asked asked.old (family, option_map (λ n. n.now) name.entry) ≡ true) }
    ensures one { OnOk result (AsksOne (family, option_map (λ n. n.now) name.entry) asked.old asked.new) }
{
    let copy = copied(alloc, name)?;
    let fresh = asked.insert((family, copy))?;
    Ok(fresh)
}
