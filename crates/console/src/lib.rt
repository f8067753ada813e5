//! The words of the command line, and what each command says.
#![tactic(auto)]

pub mod check_console;
pub mod console_words;
pub mod play_console;

pub use check_console::check;
pub use console_words::{Order, order_of};
pub use play_console::play;
