//! The code of a call does what the call means, where a call of a routine does what the routine does.
#![tactic(auto)]
