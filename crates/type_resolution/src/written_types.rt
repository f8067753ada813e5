//! Types as they are written, and values of constants, where they can be told (IEC 61131-3:2013, 6.4 and 6.5.1.4).

mod arrays;
mod constants;
mod types;
mod values;

pub use arrays::array_of;
pub use constants::constant_of;
pub use types::{named_type, type_written};
pub use values::{bound_value, is_number_type, told_value};
