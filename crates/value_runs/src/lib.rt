//! The code of expressions and places does what they mean.
#![tactic(auto)]
