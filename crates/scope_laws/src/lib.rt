//! Where a text of a good unit stands, the rules and the meaning agree on what names are.
#![tactic(auto)]

mod laws;

pub use laws::scope_laws;
