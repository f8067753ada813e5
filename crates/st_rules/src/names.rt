//! What a unit says of the names that it declares: their sorts, types and numbers. The checker of declarations tells it, and the rules of
//! expressions and statements look names up in it.

use crate::modifiers::Access;
use crate::signature::ResultType;
use plc_text::{Items, Series, Text};
use st_tree::{ClassSort, SectionSort, Target};
use st_types::StType;

/// A variable or a constant, as it is declared.
pub struct DeclaredVariable {
    /// In upper case.
    pub name: Text,
    pub sort: SectionSort,
    pub constant: bool,
    /// From where it may be used, where it is one of a class.
    pub access: Access,
    /// Whether it has an address of an input (`%I`).
    pub located_input: bool,
    /// None where the type cannot be told.
    pub kind: Option<StType>,
    /// What a use of the name means: of a constant its value.
    pub target: Target,
}

// By hand, so that a drop is one call: a derived one is written out wherever a `?` may need it, and a proof goes over each part.
impl Drop for DeclaredVariable {
    fn drop(self) {
        let DeclaredVariable {
            name: _,
            sort: _,
            constant: _,
            access: _,
            located_input: _,
            kind: _,
            target: _,
        } = self;
    }
}

/// A function, a method, or a method of an interface, as it is declared.
pub struct DeclaredRoutine {
    /// In upper case.
    pub name: Text,
    pub access: Access,
    pub abstract_method: bool,
    pub outcome: ResultType,
    /// The inputs, outputs and in-outs, in the order of the text.
    pub parameters: Series<DeclaredVariable>,
}

impl Drop for DeclaredRoutine {
    fn drop(self) {
        let DeclaredRoutine {
            name: _,
            access: _,
            abstract_method: _,
            outcome: _,
            parameters: _,
        } = self;
    }
}

/// A class or a function block: what it declares itself, in the order of the text.
#[derive(Drop)]
pub struct DeclaredClass {
    pub sort: ClassSort,
    /// Constants, in-outs, temporary variables and externals among them.
    pub variables: Series<DeclaredVariable>,
    pub methods: Items<DeclaredRoutine>,
}

/// A field of a structure.
pub struct DeclaredField {
    /// In upper case.
    pub name: Text,
    /// None where the type cannot be told.
    pub kind: Option<StType>,
}

impl Drop for DeclaredField {
    fn drop(self) {
        let DeclaredField { name: _, kind: _ } = self;
    }
}

/// What an entry of TYPE has.
#[derive(Drop)]
pub enum TypeParts {
    /// It is another name for a type.
    Nothing,
    /// The names of an enumeration's values.
    Values(Items<Text>),
    /// The fields of a structure.
    Fields(Items<DeclaredField>),
}

/// A name that serves in a type's place: an entry of TYPE, a class or an interface.
pub struct DeclaredType {
    /// In upper case.
    pub name: Text,
    /// None where the type cannot be told.
    pub kind: Option<StType>,
}

impl Drop for DeclaredType {
    fn drop(self) {
        let DeclaredType { name: _, kind: _ } = self;
    }
}

/// A global or a function.
#[derive(Drop)]
pub enum DeclaredGlobal {
    Variable(DeclaredVariable),
    /// With its number among the functions.
    Function(u32, DeclaredRoutine),
}

/// All that a unit declares, each in the order of the text.
pub struct DeclaredNames {
    /// Entries of TYPE, classes and interfaces.
    pub types: Series<DeclaredType>,
    /// By the number of an entry of TYPE.
    pub parts: Items<TypeParts>,
    /// By the number of a class.
    pub classes: Series<DeclaredClass>,
    /// The methods of an interface, by its number.
    pub interfaces: Items<Items<DeclaredRoutine>>,
    pub globals: Series<DeclaredGlobal>,
}

impl Drop for DeclaredNames {
    fn drop(self) {
        let DeclaredNames {
            types,
            parts,
            classes,
            interfaces,
            globals,
        } = self;
        drop(types);
        drop(parts);
        drop(classes);
        drop(interfaces);
        drop(globals);
    }
}
