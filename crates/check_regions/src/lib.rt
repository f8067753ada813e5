//! The regions of a unit: their order, what they take, and the bits that they share.
#![tactic(auto)]

pub mod region_rules;
pub mod shared_bits;
pub mod unit_regions;

pub use region_rules::{InstancedProgram, TakenRegions, program_values};
pub use shared_bits::TakenBits;
pub use unit_regions::{UnitRegion, list_regions, regions_of_task};
