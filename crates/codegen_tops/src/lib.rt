//! Up to which offset the code of expressions and statements uses the bytes behind the locals.
#![tactic(auto)]

mod expressions;
mod statements;

pub use expressions::value_top;
pub use statements::effects_top;
