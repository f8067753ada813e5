//! Places in tables of images.

/// A place in a table of images.
#[derive(Clone, Copy, Debug, PartialEq, Eq, PartialOrd, Ord, Hash)]
pub struct At {
    /// Which image.
    pub region: u32,
    /// How many bytes of the image lie before the place.
    pub offset: u32,
}
