//! Names that members of classes may not have, by what their bases declare (IEC 61131-3:2013, 6.6.5).

mod above;
mod names;
mod own;

pub use above::member_name_fault;
pub use names::MemberNames;
