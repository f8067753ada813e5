//! The arithmetic of the language: on whole numbers, then wrapped to a kind (IEC 61131-3:2013, 6.6.2.5). No call takes
//! memory, and each succeeds, but for a divisor of 0.
#![tactic(auto)]

mod any_size;
mod arithmetic;
mod bits;
mod conversion;
mod laws;
mod wrapping;

pub use any_size::{
    complement, conjunction, difference, disjunction, exclusive_disjunction, product, quotient,
    remainder, sum,
};
pub use arithmetic::{add, div, mul, rem, sub};
pub use bits::{and, not, or, xor};
pub use conversion::{compare, convert};
pub use laws::{bit_laws, division_laws, wrapping_laws};
pub use wrapping::wrap;
