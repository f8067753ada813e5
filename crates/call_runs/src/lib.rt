//! A call of a routine in compiled code does what the routine does.
#![tactic(auto)]
