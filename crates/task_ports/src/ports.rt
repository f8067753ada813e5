//! Variables with addresses, as a cycle uses them.

use st_tree::Width;
use st_types::Elem;

/// A variable with an address: where it lies in the images, and which bytes of the process image are its.
#[derive(Clone, Copy)]
pub struct Port {
    pub region: u32,
    pub offset: u32,
    pub elem: Elem,
    /// The first byte of the address.
    pub first: u32,
    pub width: Width,
    /// Two to the number of the bit, where the address is one of a single bit.
    pub weight: u32,
}
