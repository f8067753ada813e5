//! Statements (IEC 61131-3:2013, 7.3.3).

use crate::expression::{Argument, Expr, Literal, Place};
use plc_text::{Items, Text};
use st_types::Elem;

/// The end of a label's range, or the whole label.
#[derive(Drop)]
pub enum LabelEnd<A> {
    Int(A, Text),
    Negative(A, Text),
    Typed(A, Elem, Literal),
    Name(A, Text),
    /// `Type#Name`, with the note of the name.
    Enumerator(A, Text, A, Text),
    /// `Type.Name`, with the note of the name.
    Field(A, Text, A, Text),
}

/// `first..last`, or one value.
#[derive(Drop)]
pub struct Label<A> {
    pub first: LabelEnd<A>,
    pub last: Option<LabelEnd<A>>,
}

/// A condition, and what is done where it holds.
#[cycle(statement)]
#[derive(Drop)]
pub struct Branch<A> {
    pub condition: Expr<A>,
    pub body: Items<Stmt<A>>,
}

/// Labels, and what is done where one of them holds the selector's value.
#[cycle(statement)]
#[derive(Drop)]
pub struct Case<A> {
    pub labels: Items<Label<A>>,
    pub body: Items<Stmt<A>>,
}

/// What stands behind the branches.
#[cycle(statement)]
#[derive(Drop)]
pub enum Otherwise<A> {
    Nothing,
    Else(Items<Stmt<A>>),
}

/// A statement. The number is the line of its first token.
#[cycle(statement)]
#[derive(Drop)]
pub enum Stmt<A> {
    /// A lone `;`, which does nothing.
    Empty(u32),
    /// `place := value;`
    Assign(u32, A, Place<A>, Expr<A>),
    /// `place ?= value;`
    Attempt(u32, A, Place<A>, Expr<A>),
    Call(u32, A, Place<A>, Items<Argument<A>>),
    Exit(u32),
    Continue(u32),
    Return(u32),
    /// IF with its ELSIFs.
    If(u32, Items<Branch<A>>, Otherwise<A>),
    Case(u32, Expr<A>, Items<Case<A>>, Otherwise<A>),
    For(u32, A, Text, Expr<A>, Expr<A>, Option<Expr<A>>, Items<Stmt<A>>),
    While(u32, Expr<A>, Items<Stmt<A>>),
    Repeat(u32, Items<Stmt<A>>, Expr<A>),
}
