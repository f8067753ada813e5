//! Expressions (IEC 61131-3:2013, 7.3.2).

ghost use Rattle.std.specs.Prelude.{◌≡◌, IfOk};

use plc_text::{Items, NoMemory, Text};
use st_types::{Boxed, Elem};
use std::alloc::Global;

/// An operator between two operands, the loosest first (IEC 61131-3:2013, table 71).
#[derive(Clone, Copy, Debug, PartialEq, Eq)]
pub enum Operator {
    Or,
    OrElse,
    Xor,
    And,
    AndThen,
    Equal,
    Differs,
    Less,
    Greater,
    AtMost,
    AtLeast,
    Plus,
    Minus,
    Times,
    Divide,
    Modulo,
}

/// What stands behind a kind and `#`.
#[derive(Debug, PartialEq, Eq)]
pub enum Literal {
    /// The digits in upper case, with base and underscores.
    Int(Text),
    /// `-` and digits.
    Negative(Text),
    True,
    False,
}

// By hand, so that a drop is one call: a derived one is written out wherever a `?` may need it, and a proof goes over each part.
impl Drop for Literal {
    fn drop(self) {
        match self {
            Literal::Int(_) => {}
            Literal::Negative(_) => {}
            Literal::True => {}
            Literal::False => {}
        }
    }
}

impl Literal {
    /// The same literal again.
    pub fn copy(&self, alloc: Global) -> Result<Literal, NoMemory>
        ensures { IfOk result (λ copy. copy ≡ self.now) }
    {
        match self {
            Literal::Int(digits) => Ok(Literal::Int(Text::copy(alloc, digits.as_str())?)),
            Literal::Negative(digits) => Ok(Literal::Negative(Text::copy(alloc, digits.as_str())?)),
            Literal::True => Ok(Literal::True),
            Literal::False => Ok(Literal::False),
        }
    }
}

/// What a place begins with.
#[derive(Debug)]
pub enum Root<A> {
    Name(A, Text),
    This(A),
    Super(A),
}

impl<A: Drop> Drop for Root<A> {
    fn drop(self) {
        match self {
            Root::Name(_, _) => {}
            Root::This(_) => {}
            Root::Super(_) => {}
        }
    }
}

/// One step from a place to a part of it.
#[cycle(expression)]
#[derive(Drop)]
pub enum Selector<A> {
    /// `.name`, with the note of the name.
    Field(A, Text),
    /// `[index, ..]`
    Index(A, Items<Expr<A>>),
    /// `^`
    Target(A),
}

/// A variable or a part of one.
#[cycle(expression)]
#[derive(Drop)]
pub struct Place<A> {
    pub root: Root<A>,
    pub selectors: Items<Selector<A>>,
}

/// An operator and its right operand.
#[cycle(expression)]
#[derive(Drop)]
pub struct Tail<A> {
    /// The note of the operation on all that stands before, and this operand.
    pub note: A,
    pub operator: Operator,
    pub operand: Expr<A>,
}

/// An argument of a call.
#[cycle(expression)]
#[derive(Drop)]
pub enum Argument<A> {
    Positional(Expr<A>),
    /// `name := value`
    Input(A, Text, Expr<A>),
    /// `name => place`, with the notes of both.
    Output(A, Text, A, Place<A>),
}

/// An expression with a note at each node: its line, or what is found out about it.
#[cycle(expression)]
#[derive(Drop)]
pub enum Expr<A> {
    /// The digits in upper case, with base and underscores.
    Int(A, Text),
    /// `INT#5`, `BOOL#TRUE`
    Typed(A, Elem, Literal),
    /// `T#5S`, in upper case.
    Time(A, Text),
    True(A),
    False(A),
    Null(A),
    Place(A, Place<A>),
    Call(A, Place<A>, Items<Argument<A>>),
    /// `Type#Name`, with the note of the name.
    Enumerator(A, Text, A, Text),
    /// `REF(place)`
    Ref(A, Place<A>),
    /// `TIME()`
    Now(A),
    Paren(A, Boxed<Expr<A>>),
    Not(A, Boxed<Expr<A>>),
    Negate(A, Boxed<Expr<A>>),
    /// Operands with operators of one level between them, which group to the left. Lists keep the depth of a tree
    /// within the nesting of the text.
    Chain(A, Boxed<Expr<A>>, Items<Tail<A>>),
}
