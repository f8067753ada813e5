//! No rule of a unit has the code E17, which hooks have at loading.

mod codes;

pub use codes::refusal_codes;
