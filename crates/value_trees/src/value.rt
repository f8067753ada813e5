//! Values of a running program, with the names that its text gives.

use plc_text::{Series, Text};
use st_tree::Path;

/// A variable of an instance or a field of a structure, with its name.
#[cycle(value)]
#[derive(Drop)]
pub struct Member {
    /// In upper case.
    pub name: Text,
    pub value: Value,
}

/// A value of a type (IEC 61131-3:2013, 6.4).
#[cycle(value)]
#[derive(Drop)]
pub enum Value {
    /// Of an elementary type, or the place of an enumerator in its list.
    Number(i128),
    /// Of a reference or an interface variable: the path of an instance, or NULL.
    Reference(Option<Path>),
    /// The least index and the elements.
    Array(i128, Series<Value>),
    /// The structure's name and its fields.
    Structure(Text, Series<Member>),
    /// The class's name and its variables, those of its bases first.
    Instance(Text, Series<Member>),
}
