//! What stands in a table of worths.

/// A worth, or a list of the parts of one. Both are told by their numbers.
#[derive(Clone, Copy, PartialEq, Eq, Hash, Drop)]
pub enum Node {
    /// An elementary value or an enumerator.
    Number(i128),
    /// A reference or an interface value.
    Held,
    /// An array or a structure, by the list of its parts.
    Parts(u32),
    /// The end of a list.
    End,
    /// So many equal parts, by their number, before a list that begins with another.
    Run(u128, u32, u32),
}
