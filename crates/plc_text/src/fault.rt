//! What a running program stops at.

ghost use Rattle.std.specs.Prelude.{◌≡◌};
ghost use Rattle.plc_text.specs.Fault.{fault_name};

/// What a running program stopped at.
#[derive(Clone, Copy, Debug, PartialEq, Eq)]
pub enum FaultKind {
    /// A division.
    Divide,
    /// An index into an array.
    Index,
    /// A reference that refers to nothing.
    Null,
    /// The step of a `FOR` loop.
    Step,
    /// The watchdog's limit.
    Watchdog,
    /// The limit on nested calls.
    Depth,
}

impl FaultKind {
    /// The name, as it is printed.
    pub fn name(self) -> &'static str
        ensures { result.now ≡ fault_name self }
    {
        match self {
            FaultKind::Divide => "Divide",
            FaultKind::Index => "Index",
            FaultKind::Null => "Null",
            FaultKind::Step => "Step",
            FaultKind::Watchdog => "Watchdog",
            FaultKind::Depth => "Depth",
        }
    }
}

/// The stop of a running program.
#[derive(Clone, Copy, Debug, PartialEq, Eq)]
pub struct Fault {
    pub kind: FaultKind,
    /// The line in the source, from 1.
    pub line: u32,
}
