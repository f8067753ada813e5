//! A program that is refused.

ghost use Rattle.std.specs.Prelude.{◌≡◌, is_some};
ghost use Rattle.plc_text.specs.Code.{is_e17};

use crate::code::Code;
use crate::fault::FaultKind;
use crate::text::Text;

/// A program that is refused: by which rule, in which declaration, and at which line.
#[derive(Debug, Drop, PartialEq, Eq)]
pub struct Refusal {
    pub code: Code,
    /// The name of the declaration.
    pub declaration: Text,
    /// The line in the source, from 1.
    pub line: u32,
    /// The kind of fault, which is there exactly where the code is `Code::E17`.
    pub kind: Option<FaultKind>,
    ghost kind_with_e17: { is_some kind ≡ is_e17 code },
}
