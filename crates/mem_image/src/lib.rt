//! Images: the bytes that hold a program's values, packed from the start. Cycles, the machine, the process image
//! and the migrator read and write them.
#![tactic(auto)]

mod at;
mod image;
mod laws;
mod regions;
mod words;

pub use at::At;
pub use image::Image;
pub use laws::{part_laws, value_laws};
pub use regions::Regions;
