//! Ways from old values to new ones.

use plc_text::{Boxed, Items};

/// Elements: the bytes of an old one and of a new one, how many old ones are gone before, how many new ones come before, how many new
/// ones there are.
#[derive(Clone, Copy, Debug)]
pub struct Stride {
    pub old: u32,
    pub new: u32,
    pub skip: u32,
    pub lead: u32,
    pub count: u32,
}

/// A part of an old value: where it begins and ends, and where it lies in the new one.
#[cycle(ways)]
#[derive(Drop)]
pub struct Part {
    pub start: u32,
    pub end: u32,
    pub target: u32,
    pub way: Way,
}

/// What becomes of the instances in an old value.
#[cycle(ways)]
#[derive(Drop)]
pub enum Way {
    Nowhere,
    /// An instance, with the number of the class of the one that it goes on as.
    Instance(Option<u32>, Items<Part>),
    Fields(Items<Part>),
    Elements(Stride, Boxed<Way>),
}
