//! The rules of expressions: in one walk the type of an expression, the least rule that it breaks, and its typed tree (IEC
//! 61131-3:2013, 7.3.2), by which it is evaluated where a constant is wanted (6.5.1.4).
#![tactic(auto)]

mod broken;
mod constants;
mod expression;
mod walk;

pub use broken::Broken;
pub use constants::{Constant, check_constant};
pub use expression::{check_expr, check_whole};
pub use walk::{check, check_arguments, check_place};
