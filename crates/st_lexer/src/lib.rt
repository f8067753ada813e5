//! Reads the tokens of a program's text (IEC 61131-3:2013, 6.1), in one pass and without a copy of the text.
#![tactic(auto)]

mod characters;
mod headings;
mod lexeme;
mod lexer;
mod marks;
mod piece;
mod reach;
mod source;
mod token;

pub use headings::{declaration, is_heading, is_modifier, is_word};
pub use lexeme::{Lexeme, lexemes};
pub use lexer::Lexer;
pub use marks::{is_init_on_change, is_no_copy, old_name};
pub use source::{MAX_SOURCE, tokens};
pub use token::{Next, Token};
