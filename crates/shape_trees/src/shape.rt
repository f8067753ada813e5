//! Types of a program unfolded by names, with the variables that the text declares.

use plc_text::{Boxed, Items, Text};
use program_tables::Variable;
use st_tree::Name;
use st_types::Elem;

/// A variable of an instance or a field of a structure, with the shape of its type.
#[cycle(shape)]
#[derive(Drop)]
pub struct Field<'p> {
    pub variable: Variable<'p>,
    pub shape: Shape<'p>,
}

/// A type unfolded (IEC 61131-3:2013, 6.4).
#[cycle(shape)]
#[derive(Drop)]
pub enum Shape<'p> {
    Elementary(Elem),
    /// Its name and the names of its values.
    Enumeration(&'p Text, &'p Items<Name>),
    /// The number and the name of the class, which is not unfolded.
    Reference(u32, &'p Text),
    /// The number and the name of the interface.
    Interface(u32, &'p Text),
    /// The least index, how many elements, and their shape.
    Array(i128, usize, Boxed<Shape<'p>>),
    /// The number of the type, its name and its fields.
    Structure(u32, &'p Text, Items<Field<'p>>),
    /// The number of the class or program, its name and its variables, those of its bases first.
    Instance(u32, &'p Text, Items<Field<'p>>),
}
