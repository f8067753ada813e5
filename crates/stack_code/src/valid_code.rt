//! Which code of the stack machine is valid, and valid code with its tables by what they are asked for.

mod calls;
mod entered;
mod kinds;
mod numbers;
mod rules;
mod tables;
mod valid_code;
mod validity;

pub use valid_code::{ValidCode, validate};
