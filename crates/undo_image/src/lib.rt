//! Images whose writes can be undone: bytes, and what they were when they were committed last. Nothing of programs.
#![tactic(auto)]

mod blocks;
mod undo_image;
mod undo_log;
mod undo_regions;

pub use undo_image::UndoImage;
pub use undo_log::UndoLog;
pub use undo_regions::UndoRegions;
