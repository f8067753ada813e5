//! Which rules configurations, their tasks and their program instances break, and the tasks of the checked program.
#![tactic(auto)]

pub mod checked_tasks;
pub mod config_rules;
pub mod configuration_rules;
pub mod program_instances;

pub use checked_tasks::{check_tasks, setting_laws};
pub use config_rules::tasks_and_instances;
pub use configuration_rules::{CheckedConfiguration, check_configuration};
pub use program_instances::{CheckedInstance, UnitPrograms, check_instance};
