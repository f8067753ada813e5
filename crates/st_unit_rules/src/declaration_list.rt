//! The variables of sections and the declarations of a unit, one by one in the order of the text.

mod listed;
mod written;

pub use listed::{Declared, list_declarations};
pub use written::{
    WrittenName, is_of_body, is_parameter, item_line, written_members, written_names,
};
