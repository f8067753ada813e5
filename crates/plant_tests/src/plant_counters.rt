//! Counters as a program that a core runs, with changes: the smallest one that keeps the laws. For tests.

mod counters;

pub use counters::{Counters, Draft};
