//! The rules of sections and their variables that hang on no names (IEC 61131-3:2013, 6.5 and 6.6.5).
#![tactic(auto)]

mod addresses;
mod headings;
mod home;
mod variables;

pub use addresses::address_fault;
pub use headings::heading_fault;
pub use home::{Home, may_have_address, may_hold_instances};
pub use variables::{constant_fault, instance_of_abstract_class, instance_out_of_place};
