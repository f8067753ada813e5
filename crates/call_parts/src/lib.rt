//! What a call consists of: the rooms of what is large, its outputs, and the routine that its code enters.
#![tactic(auto)]
