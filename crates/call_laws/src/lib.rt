//! What is promised of expressions and calls, where the rules and the meaning agree on what names are.
#![tactic(auto)]

mod laws;

pub use laws::expression_laws;
