//! Scenarios: a first program, the sources that may be loaded in its place, and the plays, phase by phase.
#![tactic(auto)]

mod lines;
mod made;
mod play_line;
mod played;
mod reader;
mod reading;
mod scenario;
mod scenario_error;

pub use made::make_load;
pub use reading::{one_scenario, read_scenario};
pub use scenario::Scenario;
pub use scenario_error::ScenarioError;
