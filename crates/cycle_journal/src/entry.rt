//! The entries of a journal.

use crate::outputs::Outputs;
use plc_text::{Fault, Refusal};

/// What a cycle of a program gives.
#[derive(Debug, Drop, PartialEq, Eq)]
pub enum CycleReply {
    /// The cycle ended.
    Done {
        /// The ticks that it spent.
        ticks: u32,
        /// The outputs at its end.
        outputs: Outputs,
    },
    /// The cycle stopped at a fault, and changed nothing.
    Fault(Fault),
}

/// What a play was answered.
#[derive(Debug, Drop, PartialEq, Eq)]
pub enum Answer {
    /// The cycle ended.
    Done {
        /// The ticks that it spent.
        ticks: u32,
        /// The outputs at its end.
        outputs: Outputs,
    },
    /// The cycle stopped at a fault, and changed nothing. Its task is held from now on.
    Fault(Fault),
    /// The task of the cycle is held, so nothing ran.
    Held,
    /// The loaded version has no task of the play's name. The number is that of the version whose loading removed it
    /// last, 0 where no version so far had it.
    NoTask(u32),
    /// The source is loaded, as the version of this number.
    Loaded(u32),
    /// The source is refused, and nothing changed.
    Refused(Refusal),
    /// The change found no memory, and nothing changed.
    RefusedMemory,
    /// The task of the reset is not held from now on.
    Released,
}

/// One line of the journal: a play and its answer.
#[derive(Debug, Drop, PartialEq, Eq)]
pub struct Entry {
    /// The number of the version that was loaded when the entry was made, from 1.
    pub version: u32,
    /// The play's number, from 1.
    pub play: u32,
    pub answer: Answer,
}
