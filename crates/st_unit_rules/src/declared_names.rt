//! What a unit says of the names that it declares: types as they are written, values of constants, variables with their numbers, and
//! the scopes of its texts (IEC 61131-3:2013, 6.4 and 6.5).

mod constants;
mod declarations;
mod dimensions;
mod laws;

pub use constants::is_told;
pub use declarations::{behind_instances, resource_globals};
pub use dimensions::has_fewer_dimensions;
pub use laws::constant_laws;
