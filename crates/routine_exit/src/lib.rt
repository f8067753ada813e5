//! What is given to a routine as its code asks for it, and what the code behind its body leaves in the block.
#![tactic(auto)]
