//! The code of what holds no expression: leaves, operators, parts of places, and the parts of a call.
#![tactic(auto)]

mod calls;
mod leaves;
mod operators;
mod places;
mod pushes;

pub use calls::{
    CallPlan, Cursor, ResultPlan, argument_number, behind_argument, bit, call_of, emit_entry,
    emit_give, emit_kept, emit_output_value, emit_own, emit_same, emit_taken, further,
    is_base_body, is_conversion, parameter_place, place_in, room_of,
};
pub use leaves::{emit_constant, emit_int, emit_negative, emit_time, emit_typed};
pub use operators::{emit_operator, is_held, is_large, number_kind};
pub use places::{
    emit_fetch, emit_followed, emit_keep, emit_named, emit_part, emit_root, index_op,
};
pub use pushes::{does, push, set};
