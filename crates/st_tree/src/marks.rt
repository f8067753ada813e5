//! What the pragmas before a variable say of it.

ghost use Rattle.std.specs.Prelude.{◌≡◌, IfOk};
ghost use Rattle.st_tree.specs.Reads.{no_marks};

use plc_text::{NoMemory, Text};
use std::alloc::Global;

/// What the pragmas before a variable say of it at a change.
#[derive(Debug, Drop, PartialEq, Eq)]
pub struct Marks {
    /// A moved variable is not copied.
    pub no_copy: bool,
    /// The variable is initialised at each change.
    pub init_on_change: bool,
    /// The old variable that is meant, in upper case.
    pub renamed_from: Option<Text>,
}

impl Marks {
    /// No mark at all.
    pub fn none() -> Marks
        ensures { result ≡ no_marks }
    {
        Marks {
            no_copy: false,
            init_on_change: false,
            renamed_from: None,
        }
    }

    /// The same marks again.
    pub fn copy(&self, alloc: Global) -> Result<Marks, NoMemory>
        ensures { IfOk result (λ copy. copy ≡ self.now) }
    {
        let renamed_from = copy_of(alloc, &self.renamed_from)?;
        Ok(Marks {
            no_copy: self.no_copy,
            init_on_change: self.init_on_change,
            renamed_from,
        })
    }
}

fn copy_of(alloc: Global, name: &Option<Text>) -> Result<Option<Text>, NoMemory>
    ensures { IfOk result (λ copy. copy ≡ name.now) }
{
    match name {
        Some(text) => Ok(Some(Text::copy(alloc, text.as_str())?)),
        None => Ok(None),
    }
}
