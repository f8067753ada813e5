//! Methods by number.

/// A method: the number of its class, and its number among the methods of the class. Numbers count from 0 in the order of the text.
#[derive(Clone, Copy, Debug, PartialEq, Eq)]
pub struct MethodId {
    pub class: u32,
    pub method: u32,
}

/// A method of an interface: the number of the interface, and its number among the methods of the interface.
#[derive(Clone, Copy, Debug, PartialEq, Eq)]
pub struct PrototypeId {
    pub interface: u32,
    pub method: u32,
}
