//! Parses statements and initial values (IEC 61131-3:2013, 7.3.3 and 6.4.4), for the parser of declarations.
#![tactic(auto)]

mod initial;
mod label;
mod law;
mod leaf;
mod number;
mod statement;

pub use initial::initial_value;
pub use law::one_reading;
pub use leaf::{eat, expression, is_next, sign, word};
pub use st_parser_expr::Held;
pub use statement::body_until;
