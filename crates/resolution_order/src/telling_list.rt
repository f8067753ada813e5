//! What can be told of a unit, one by one, as definitions, and why it may be told in any order.

mod laws;

pub use laws::job_laws;
