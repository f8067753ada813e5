//! The plays of a scenario.

ghost use Rattle.std.specs.Prelude.{◌≡◌, ◌↔◌, IsTrue};
ghost use Rattle.cycle_journal.specs.Play.{name_of, Named};

use plc_text::{Items, Text, is_upper_word};

/// A step of a scenario. Plays are numbered from 1.
#[derive(Debug, Drop)]
pub enum Play {
    /// One cycle of a task.
    Cycle {
        /// The task's name, in upper case.
        task: Text,
        /// The moment, in milliseconds.
        now: u32,
        /// The input bytes, from byte 0 of the input image on.
        input: Items<u8>,
    },
    /// A source is loaded in place of the running program.
    Change {
        /// The source's name, in upper case.
        name: Text,
        /// The source's place in the scenario's table of sources, from 0.
        source: u32,
    },
    /// A task that is held is released.
    Reset {
        /// The task's name, in upper case.
        task: Text,
    },
}

impl Play {
    /// The name of its task, or of the source that it loads.
    pub fn name(&self) -> &str
        ensures { result.now ≡ name_of self.now }
    {
        match self {
            Play::Cycle { task, .. } | Play::Reset { task } => task.as_str(),
            Play::Change { name, .. } => name.as_str(),
        }
    }
}

/// Whether each play's name is a word in upper case. It may be a keyword.
pub fn are_named(plays: &[Play]) -> bool
    ensures { IsTrue result ↔ Named plays.now }
{
    plays
        .iter()
        .all(|play| is_upper_word(play.name().as_bytes()))
}
