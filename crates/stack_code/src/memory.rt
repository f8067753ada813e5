//! Addresses and operand words.

/// Which images an address speaks of.
#[derive(Clone, Copy, PartialEq, Eq)]
pub enum Space {
    /// The regions.
    Regions,
    /// The locals of the open calls, and at 0 those of the program's body.
    Locals,
}

/// Where a value lies.
#[derive(Clone, Copy)]
pub struct Address {
    pub space: Space,
    /// Which image of the space: a region's number, or the depth of a call.
    pub index: u32,
    /// How many bytes of the image lie before it.
    pub offset: u32,
}

/// An operand word.
#[derive(Clone, Copy)]
pub enum Word {
    Number(i128),
    Address(Address),
    Null,
}
