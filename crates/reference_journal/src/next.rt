//! A program that is loaded in place of another one.

use plc_text::Refusal;
use reference_plays::Controller;
use st_tree::Program;

/// A program with what the controller holds once it is loaded.
#[derive(Drop)]
pub struct Version {
    pub program: Program,
    pub state: Controller,
}

/// What a change of the running program came to.
#[derive(Drop)]
pub enum Change {
    /// The next program is loaded.
    Loaded(Version),
    /// It is refused, by its text or by a hook that stopped at a fault, and nothing changed.
    Refused(Refusal),
}
