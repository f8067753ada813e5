//! The images of a program's regions as they are at its beginning.

mod fill;
mod images;

pub use images::initial_images;
