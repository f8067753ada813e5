//! How a command of the program ends: a report that was written whole, one that was cut, or silence with its cause.
#![tactic(auto)]

mod checker;
mod command;
mod outcome;
mod reports;

pub use checker::Checker;
pub use command::{Command, Report, perform};
pub use outcome::{Cause, Outcome, Status, Verdict};
pub use reports::{push_refusal, refused_report, script_report};
