//! The plain program: the first load of a checked program, and the entries of the plays behind it, changes of the program among them.
#![tactic(auto)]

mod changing;
mod loading;
mod next;
mod played;
mod playing;
mod versions;

pub use loading::{give_back, load_first};
pub use played::Played;
pub use versions::play_all;
