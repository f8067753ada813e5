//! What a constant expression comes to.

/// What a constant expression comes to.
#[derive(Clone, Copy, Debug, PartialEq, Eq)]
pub enum Outcome {
    /// A number, or the number of an enumerator.
    Number(i128),
    /// A zero divisor ends it, in the row of operators at this line.
    DividesByZero(u32),
    /// No value can be told.
    Untold,
}
