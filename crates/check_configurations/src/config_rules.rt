//! The rules of tasks and program instances in a configuration (IEC 61131-3:2013, 6.8).

mod settings;
mod tasks;

pub use tasks::tasks_and_instances;
