//! The regions of a unit, globals and program instances in the order of the text (IEC 61131-3:2013, 6.8).

mod listed;
mod run;

pub use listed::{UnitRegion, list_regions};
pub use run::regions_of_task;
