//! The tasks of a checked program, with the regions that they run (IEC 61131-3:2013, 6.8).

mod groups;
mod laws;
mod settings;
mod tasks;

pub use laws::setting_laws;
pub use tasks::check_tasks;
