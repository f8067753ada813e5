//! Copies of what may be there.

ghost use Rattle.std.specs.Prelude.{◌≡◌, map, IfOk};

use plc_text::{Items, NoMemory, Text};
use st_tree::Name;
use st_types::StType;
use std::alloc::Global;

/// The same type again, where there is one.
pub fn copied(alloc: Global, kind: &Option<StType>) -> Result<Option<StType>, NoMemory>
    ensures { IfOk result (λ t. t ≡ kind.now) }
{
    match kind {
        Some(kind) => {
            let copy = kind.copy(alloc)?;
            Ok(Some(copy))
        }
        None => Ok(None),
    }
}

/// The same text again, where there is one.
pub fn copied_text(alloc: Global, text: &Option<Text>) -> Result<Option<Text>, NoMemory>
    ensures { IfOk result (λ copy. copy ≡ text.now) }
{
    match text {
        Some(text) => {
            let copy = Text::copy(alloc, text.as_str())?;
            Ok(Some(copy))
        }
        None => Ok(None),
    }
}

/// The texts of names.
pub fn texts(alloc: Global, names: &[Name]) -> Result<Items<Text>, NoMemory>
    ensures { IfOk result (λ list. list ≡ map (λ n. n.text) names.now) }
{
    let mut list = Items::new(alloc);
    for name in names {
        let text = Text::copy(alloc, name.text.as_str())?;
        list.push(text)?;
    }
    Ok(list)
}
