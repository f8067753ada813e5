//! What threads of tasks pass.

use plc_text::Text;

/// What each cycle passes before it runs on a thread of its own.
pub trait Gate {
    /// Called with the task's name and the number of its cycle, from 1.
    fn at(&self, task: &Text, turn: u32);
}

/// Lets every cycle pass.
pub struct OpenGate;

impl Gate for OpenGate {
    fn at(&self, _task: &Text, _turn: u32) {}
}
