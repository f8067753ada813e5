//! How a command ends, and the exit statuses.

ghost use Rattle.std.specs.Prelude.{◌≡◌};
ghost use Rattle.console_command.specs.Outcome.{status_code, status_name, status_of};

/// What a report that was written says.
#[derive(Clone, Copy, Debug, PartialEq, Eq)]
pub enum Verdict {
    /// All that was asked for.
    Done,
    /// The first program is refused.
    Refused,
    /// The bytes are no scenario.
    Script,
}

/// Why nothing was written.
#[derive(Clone, Copy, Debug, PartialEq, Eq)]
pub enum Cause {
    /// The words are no command. Nothing was read.
    Usage,
    /// A read failed.
    ReadFault,
    /// There are more bytes than a scenario may have.
    TooLong,
    NoMemory,
}

/// How a command ends.
#[derive(Clone, Copy, Debug, PartialEq, Eq)]
pub enum Outcome {
    /// The whole report was written.
    Whole(Verdict),
    /// A write failed, and the report was cut.
    Cut,
    /// Nothing was written.
    Silent(Cause),
}

/// How the program ends, in the order of the exit statuses 0 to 7.
#[derive(Clone, Copy, Debug, PartialEq, Eq)]
pub enum Status {
    /// The whole text was written.
    Done,
    /// The first program is refused.
    Refused,
    /// The words are no command.
    Usage,
    /// The bytes are no scenario.
    Script,
    /// A read failed.
    ReadFault,
    /// A write failed, and the text was cut.
    WriteFault,
    NoMemory,
    /// There are more bytes than a scenario may have.
    TooLong,
}

impl Outcome {
    /// How the program ends with it.
    pub fn status(self) -> Status
        ensures { result ≡ status_of self }
    {
        match self {
            Outcome::Whole(Verdict::Done) => Status::Done,
            Outcome::Whole(Verdict::Refused) => Status::Refused,
            Outcome::Whole(Verdict::Script) => Status::Script,
            Outcome::Cut => Status::WriteFault,
            Outcome::Silent(Cause::Usage) => Status::Usage,
            Outcome::Silent(Cause::ReadFault) => Status::ReadFault,
            Outcome::Silent(Cause::TooLong) => Status::TooLong,
            Outcome::Silent(Cause::NoMemory) => Status::NoMemory,
        }
    }
}

impl Status {
    /// The exit status: 0 to 7, in the order of the variants.
    pub fn code(self) -> u8
        ensures { result ≡ status_code self }
    {
        self as u8
    }

    /// The name that is printed where the status is not `Done`.
    pub fn name(self) -> &'static str
        ensures { result.now ≡ status_name self }
    {
        match self {
            Status::Done => "Done",
            Status::Refused => "Refused",
            Status::Usage => "Usage",
            Status::Script => "Script",
            Status::ReadFault => "ReadFault",
            Status::WriteFault => "WriteFault",
            Status::NoMemory => "NoMemory",
            Status::TooLong => "TooLong",
        }
    }
}
