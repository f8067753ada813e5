//! What a change carries, place by place: laws of the values of a store that goes on, and of the row of writes that makes them.

mod carrying;

pub use carrying::{place_laws, write_laws};
