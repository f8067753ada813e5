//! The code of a call that is a statement does what the call means, and the outputs that it takes.
#![tactic(auto)]
