//! A copy of a store.

ghost use Rattle.std.specs.Prelude.{◌≡◌, IfOk};

use plc_text::{NoMemory, Series, Text};
use std::alloc::Global;
use value_trees::{Member, copy_value};

/// The same store again.
pub fn copy_store(alloc: Global, store: &Series<Member>) -> Result<Series<Member>, NoMemory>
    ensures { IfOk result (λ copy. copy ≡ store.now) }
{
    let members = store.as_slice();
    let mut copy = Series::new(alloc);
    for member in members {
        let name = Text::copy(alloc, member.name.as_str())?;
        let value = copy_value(alloc, &member.value)?;
        copy.push(Member { name, value })?;
    }
    Ok(copy)
}
