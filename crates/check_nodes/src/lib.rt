//! Parts of expressions: what is found out about a node, from what is found out about the nodes below it (IEC 61131-3:2013, 7.3.2).
//! Here nothing goes down into parts but the count of operators, and the test whether an expression is untyped.
#![tactic(auto)]

mod along;
mod calls;
mod count;
mod found;
mod given;
mod leaves;
mod lists;
mod rows;
mod slots;
mod untyped;
mod values;
mod wholes;
mod wraps;

pub use along::{
    Along, CheckedSelector, extended, is_last_at, noted_field, noted_index, noted_target, started,
};
pub use calls::{Prepared, finish, prepare};
pub use count::operators_fault;
pub use found::Checked;
pub use given::{asked_for, input, output, positional};
pub use leaves::{duration, falsehood, int, negative, now, null, truth, typed_literal};
pub use lists::{
    Arguments, CheckedArgument, Indices, no_argument, no_index, with_argument, with_index,
};
pub use rows::{
    Ahead, Row, asked_nothing, began, behind, closed, ended_by, front_asked, joined, operand_asked,
    to_the_end,
};
pub use slots::{Slot, slot_at};
pub use untyped::{as_int, is_untyped, line_of};
pub use values::enumerator;
pub use wholes::{CheckedPlace, at_root, place_root_fault, reference, whole};
pub use wraps::{denied, enclosed, negated};
