//! Names and addresses once more.

ghost use Rattle.std.specs.Prelude.{◌≡◌, IfOk};

use plc_text::{Items, NoMemory};
use st_tree::Name;
use std::alloc::Global;

/// The same names again.
pub fn copied_names(alloc: Global, names: &[Name]) -> Result<Items<Name>, NoMemory>
    ensures { IfOk result (λ copy. copy ≡ names.now) }
{
    let mut copy = Items::new(alloc);
    for name in names {
        let one = name.copy(alloc)?;
        copy.push(one)?;
    }
    Ok(copy)
}
