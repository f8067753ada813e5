//! Initial values as they are written (IEC 61131-3:2013, 6.4.4 and 6.5.1).

use crate::expression::Expr;
use plc_text::{Items, Text};

/// An initial value.
#[cycle(initial)]
#[derive(Drop)]
pub enum Init<A> {
    Value(Expr<A>),
    /// `[part, ..]`, of an array. The line is that of the bracket.
    Array(u32, Items<Part<A>>),
    /// `(name := value, ..)`, of a structure or an instance. The line is that of the parenthesis.
    Fields(u32, Items<FieldInit<A>>),
}

/// A part of the list of an array.
#[cycle(initial)]
#[derive(Drop)]
pub enum Part<A> {
    One(Init<A>),
    /// `count(value)`, with the count's line and digits.
    Repeated(u32, Text, Init<A>),
}

#[cycle(initial)]
#[derive(Drop)]
pub struct FieldInit<A> {
    pub note: A,
    pub name: Text,
    pub value: Init<A>,
}
