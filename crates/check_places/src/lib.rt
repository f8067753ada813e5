//! Places: what stands at a variable and its parts, which rules they break, and what their names are noted to mean (IEC 61131-3:2013,
//! 6.4.4, 6.5.2 and 6.6.5). Each function is one of the definitions of `st_rules`.
#![tactic(auto)]

mod access;
mod assignability;
mod conversion;
mod indices;
mod notes;
mod parts;
mod places;
mod roots;
mod selectors;
mod standing;

pub use assignability::{is_fixed, target_fault};
pub use conversion::conversion_named;
pub use notes::{
    meant_target, note, note_of, part_note, standing_note, typed_root, value_target, whole_target,
};
pub use parts::part_of;
pub use places::{placed, root_standing, selected};
pub use roots::{is_last, root_fault, root_line, selectors_fault, whole_fault};
pub use selectors::selector_fault;
pub use standing::{Part, Standing, standing_type};
