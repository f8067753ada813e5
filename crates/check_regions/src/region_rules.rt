//! The rules of regions, globals and program instances among those before them (IEC 61131-3:2013, 6.5.5 and 6.8).

mod limits;
mod programs;
mod taken;

pub use programs::{InstancedProgram, program_values};
pub use taken::TakenRegions;
