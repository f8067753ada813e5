//! Types as they are written (IEC 61131-3:2013, 6.4).

use crate::expression::Expr;
use plc_text::{Items, Text};
use st_types::Elem;

/// The bounds of one dimension of an array, both included.
#[derive(Drop)]
pub struct Bounds<A> {
    pub low: Expr<A>,
    pub high: Expr<A>,
}

/// `ARRAY [low..high, ..] OF`, with the note of the word ARRAY.
#[derive(Drop)]
pub struct ArraySpec<A> {
    pub note: A,
    pub bounds: Items<Bounds<A>>,
}

/// A type that is written as no array.
#[derive(Drop)]
pub enum SimpleSpec<A> {
    Elementary(A, Elem),
    Named(A, Text),
    /// `REF_TO name`, with the note of the name.
    Reference(A, A, Text),
}

/// A type as it is written: its arrays, the outermost first, and what the innermost one is of. The arrays are a list,
/// since `ARRAY .. OF ARRAY .. OF ..` is no nesting: a text may have tens of thousands of them in a row.
#[derive(Drop)]
pub struct TypeSpec<A> {
    pub arrays: Items<ArraySpec<A>>,
    pub element: SimpleSpec<A>,
}
