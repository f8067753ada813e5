//! The rules of variables, sections and results, and their typed trees (IEC 61131-3:2013, 6.5 and 6.6.5).

mod copies;
mod externals;
mod given;
mod items;
mod results;
mod rules;
mod sections;

pub use copies::copied_names;
pub use given::{CheckedGiven, check_given};
pub use items::{CheckedItem, check_item};
pub use results::{CheckedResult, check_result};
pub use sections::{CheckedSection, CheckedSections, check_section, check_sections};
