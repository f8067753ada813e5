//! The tables of compiled code are those that its code asks.
#![tactic(auto)]
