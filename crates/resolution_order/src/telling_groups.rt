//! What can be told of a unit, in groups that are told together, in an order of need (IEC 61131-3:2013, 6.4 and 6.5.1.4).

mod arranged;
mod groups;
mod order;

pub use arranged::arrange_groups;
pub use groups::Group;
pub use order::order_of_need;
