//! Instructions of the stack machine, and the kinds of its operand words.

use st_types::Elem;

/// The kind of an operand word.
#[derive(Clone, Copy, PartialEq, Eq)]
pub enum Kind {
    /// A number.
    Num,
    /// An address or NULL.
    Addr,
}

/// An instruction. Words are popped from the top and pushed on it; `a, b` are popped with b on top. An instruction with
/// an elementary type first wraps to it each number that it pops.
#[derive(Clone, Copy)]
pub enum Op {
    /// Pushes the number.
    Push(i128),
    /// Pushes NULL.
    Null,
    /// Pops a word of any kind.
    Drop,
    /// Pushes the word on top once more.
    Dup,
    /// Pushes the address that lies so many bytes into the call's locals.
    Local(u32),
    /// Pushes the address that lies so many bytes into the own instance.
    This(u32),
    /// Pushes the address that lies so many bytes (the second number) into a region (the first).
    Region(u32, u32),
    /// Pops an address and pushes the one so many bytes further on.
    Offset(u32),
    /// Of the lower bound, the upper bound and the element's size in bytes: pops an address and an index, and pushes
    /// the element's address; a fault Index where the index is not within the bounds.
    Index(i128, i128, u32),
    /// A fault Null where the word on top is NULL.
    Deref,
    /// Pops an address and pushes the value that is kept there.
    Load(Elem),
    /// Pops a value and an address, and keeps the value there.
    Store(Elem),
    /// Pops an address and pushes the reference that is kept there.
    LoadRef,
    /// Pops a reference and an address, and keeps the reference there.
    StoreRef,
    /// Pops a source and a target, and copies so many bytes.
    Copy(u32),
    /// Pops a, b and pushes their sum.
    Add(Elem),
    /// Pops a, b and pushes their difference.
    Sub(Elem),
    /// Pops a, b and pushes their product.
    Mul(Elem),
    /// Pops a, b and pushes their quotient; a fault Divide where b is 0.
    Div(Elem),
    /// Pops a, b and pushes what the quotient leaves; a fault Divide where b is 0.
    Mod(Elem),
    /// Pops a number and pushes it with the other sign.
    Neg(Elem),
    /// Pops a, b and pushes their sum, and on it 1 where the sum had to be wrapped, else 0.
    AddC(Elem),
    /// Pops a, b and pushes 1 where they are equal, else 0; likewise the five that follow.
    Eq,
    Ne,
    Lt,
    Le,
    Gt,
    Ge,
    /// Pops two references and pushes 1 where they are equal, else 0.
    Same,
    /// Pops a, b and pushes their conjunction bit by bit.
    And(Elem),
    Or(Elem),
    Xor(Elem),
    /// Pops a number and pushes its complement.
    Not(Elem),
    /// Pops a number of the first kind and pushes it as one of the second.
    Conv(Elem, Elem),
    /// A fault Step where the word on top is 0; the word stays.
    NoZero,
    /// Goes on at the instruction of that number.
    Jump(u32),
    /// Pops a number, and goes on there where it is 0.
    JumpF(u32),
    /// Spends a tick; a fault Watchdog where none is left.
    Tick,
    /// Of a routine and a number of argument words: pops these and below them an own instance or NULL, and enters the
    /// routine; a fault Depth where it would be the 65th open call.
    Call(u32, u32),
    /// Of a class as a target of conversion, a slot and a number of argument words: enters the routine in this slot of
    /// the instance's class.
    CallM(u32, u32, u32),
    /// Of an interface, a method of it and a number of argument words: enters the routine by which the instance's class
    /// implements the method.
    CallI(u32, u32, u32),
    /// Pops a reference and pushes it where the instance conforms to the target, else NULL.
    Try(u32),
    /// Pushes the moment of the cycle.
    Now,
    /// Goes back to the caller, which finds so many words; ends the run in the routine that the run entered.
    Ret(u32),
    /// Ends the run.
    End,
}
