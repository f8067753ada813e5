//! What contains itself by value, and types and constants that need themselves (IEC 61131-3:2013, 6.4.4.2 and 6.5.1.4).
#![tactic(auto)]

mod contained;
mod edges;
mod graph;
mod hubs;
mod inner;
mod known;
mod names;
mod needed;
mod texts;

pub use graph::DeclaredGraph;
pub use inner::inner_cycles_fault;
pub use texts::own_values_fault;
