//! Names, as they are declared and as they are used.

ghost use Rattle.std.specs.Prelude.{◌≡◌, IfOk};

use plc_text::{NoMemory, Text};
use std::alloc::Global;

/// A name that is declared, in upper case, and the line at which it stands.
#[derive(Debug, Drop, PartialEq, Eq)]
pub struct Name {
    pub text: Text,
    pub line: u32,
}

/// A name that is used, in upper case, with a note.
#[derive(Drop)]
pub struct Used<A> {
    pub note: A,
    pub text: Text,
}

impl Name {
    /// The same name again.
    pub fn copy(&self, alloc: Global) -> Result<Name, NoMemory>
        ensures { IfOk result (λ copy. copy ≡ self.now) }
    {
        let text = Text::copy(alloc, self.text.as_str())?;
        let line = self.line;
        Ok(Name { text, line })
    }
}
