//! The limits of a class or a function block: methods, parameters and locals of its body, bases, and depth (E16).

mod counts;
mod limits;

pub use limits::class_limit_fault;
