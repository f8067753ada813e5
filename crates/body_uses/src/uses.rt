//! What texts use.

use plc_text::Text;
use st_types::StType;

/// What a call may enter, by the type on which it stands.
#[derive(Clone, Copy)]
pub enum Called<'p> {
    Function(u32),
    /// The method that a name means in the classes that conform to a type.
    MethodOf(&'p StType, &'p Text),
    /// The method that a name means from a class on, upward.
    MethodFrom(u32, &'p Text),
    /// The bodies of the classes that conform to a type.
    BodyOf(&'p StType),
    /// The body of a class.
    BodyFrom(u32),
}

/// Who owns a place: a global by its region, or the instances that conform to a type.
#[derive(Clone, Copy)]
pub enum Owner<'p> {
    Region(u32),
    Instances(&'p StType),
}

/// One use in a text.
#[derive(Clone, Copy)]
pub enum Use<'p> {
    /// A global is named, by its region.
    Names(u32),
    /// A reference or interface value of this type is dereferenced, called or tried.
    Follows(&'p StType),
    Calls(Called<'p>),
    Changes(Owner<'p>),
}
