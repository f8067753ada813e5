//! Declarations: sections of variables, types, interfaces, classes, functions and programs (IEC 61131-3:2013, 6.4 to 6.6).

use crate::initial::Init;
use crate::marks::Marks;
use crate::name::{Name, Used};
use crate::statement::Stmt;
use crate::type_spec::TypeSpec;
use plc_text::{Items, Text};

/// A word before a name or behind the word of a section.
#[derive(Clone, Copy, Debug, PartialEq, Eq)]
pub enum Modifier {
    Constant,
    Retain,
    NonRetain,
    Persistent,
    Public,
    Protected,
    Private,
    Internal,
    Abstract,
    Final,
    Override,
}

/// What a section declares.
#[derive(Clone, Copy, Debug, PartialEq, Eq)]
pub enum SectionSort {
    Var,
    Input,
    Output,
    InOut,
    Temp,
    External,
    Global,
}

/// Variables that share what is written behind their names.
pub struct Item<A> {
    /// Of the first name.
    pub marks: Marks,
    pub names: Items<Name>,
    /// The address in upper case.
    pub address: Option<Text>,
    pub kind: TypeSpec<A>,
    pub initial: Option<Init<A>>,
}

// By hand, so that a drop is one call: a derived one is written out wherever a `?` may need it, and a proof goes over each part.
impl<A: Drop> Drop for Item<A> {
    fn drop(self) {
        let Item {
            marks,
            names,
            address,
            kind,
            initial,
        } = self;
        drop(marks);
        drop(names);
        drop(address);
        drop(kind);
        drop(initial);
    }
}

/// A section of variables, with the line of its first word.
pub struct Section<A> {
    pub line: u32,
    pub sort: SectionSort,
    pub modifiers: Items<Modifier>,
    pub items: Items<Item<A>>,
}

impl<A: Drop> Drop for Section<A> {
    fn drop(self) {
        let Section {
            line: _,
            sort,
            modifiers,
            items,
        } = self;
        drop(sort);
        drop(modifiers);
        drop(items);
    }
}

/// Fields of a structure that share what is written behind their names.
pub struct FieldGroup<A> {
    pub names: Items<Name>,
    pub kind: TypeSpec<A>,
    pub initial: Option<Init<A>>,
}

impl<A: Drop> Drop for FieldGroup<A> {
    fn drop(self) {
        let FieldGroup {
            names,
            kind,
            initial,
        } = self;
        drop(names);
        drop(kind);
        drop(initial);
    }
}

/// What a name of TYPE stands for.
#[derive(Drop)]
pub enum TypeBody<A> {
    Alias(TypeSpec<A>),
    Enumeration(Items<Name>),
    Structure(Items<FieldGroup<A>>),
}

/// An entry of TYPE.
pub struct TypeDecl<A> {
    pub name: Name,
    pub body: TypeBody<A>,
}

impl<A: Drop> Drop for TypeDecl<A> {
    fn drop(self) {
        let TypeDecl { name, body } = self;
        drop(name);
        drop(body);
    }
}

/// A method of an interface. The line is that of METHOD.
pub struct Prototype<A> {
    pub line: u32,
    pub name: Name,
    pub result: Option<TypeSpec<A>>,
    pub sections: Items<Section<A>>,
}

impl<A: Drop> Drop for Prototype<A> {
    fn drop(self) {
        let Prototype {
            line: _,
            name,
            result,
            sections,
        } = self;
        drop(name);
        drop(result);
        drop(sections);
    }
}

/// An interface. The line is that of INTERFACE.
pub struct InterfaceDecl<A> {
    pub line: u32,
    pub name: Name,
    /// The interfaces that it extends.
    pub bases: Items<Used<A>>,
    pub methods: Items<Prototype<A>>,
}

impl<A: Drop> Drop for InterfaceDecl<A> {
    fn drop(self) {
        let InterfaceDecl {
            line: _,
            name,
            bases,
            methods,
        } = self;
        drop(name);
        drop(bases);
        drop(methods);
    }
}

/// A method of a class or a function block. The line is that of METHOD.
pub struct Method<A> {
    pub line: u32,
    pub modifiers: Items<Modifier>,
    pub name: Name,
    pub result: Option<TypeSpec<A>>,
    pub sections: Items<Section<A>>,
    pub body: Items<Stmt<A>>,
}

impl<A: Drop> Drop for Method<A> {
    fn drop(self) {
        let Method {
            line: _,
            modifiers,
            name,
            result,
            sections,
            body,
        } = self;
        drop(modifiers);
        drop(name);
        drop(result);
        drop(sections);
        drop(body);
    }
}

/// A part of a class.
#[derive(Drop)]
pub enum Member<A> {
    Section(Section<A>),
    Method(Method<A>),
}

/// Whether a class has a body of its own.
#[derive(Clone, Copy, Debug, PartialEq, Eq)]
pub enum ClassSort {
    Class,
    FunctionBlock,
}

/// A class or a function block. The line is that of its first word.
pub struct ClassDecl<A> {
    pub line: u32,
    pub sort: ClassSort,
    pub modifiers: Items<Modifier>,
    pub name: Name,
    pub base: Option<Used<A>>,
    /// The interfaces that it implements.
    pub interfaces: Items<Used<A>>,
    pub members: Items<Member<A>>,
    /// Without statements for a class.
    pub body: Items<Stmt<A>>,
}

impl<A: Drop> Drop for ClassDecl<A> {
    fn drop(self) {
        let ClassDecl {
            line: _,
            sort,
            modifiers,
            name,
            base,
            interfaces,
            members,
            body,
        } = self;
        drop(sort);
        drop(modifiers);
        drop(name);
        drop(base);
        drop(interfaces);
        drop(members);
        drop(body);
    }
}

/// A function. The line is that of FUNCTION.
pub struct FunctionDecl<A> {
    pub line: u32,
    pub name: Name,
    pub result: Option<TypeSpec<A>>,
    pub sections: Items<Section<A>>,
    pub body: Items<Stmt<A>>,
}

impl<A: Drop> Drop for FunctionDecl<A> {
    fn drop(self) {
        let FunctionDecl {
            line: _,
            name,
            result,
            sections,
            body,
        } = self;
        drop(name);
        drop(result);
        drop(sections);
        drop(body);
    }
}

/// A program. The line is that of PROGRAM.
pub struct ProgramDecl<A> {
    pub line: u32,
    pub name: Name,
    pub sections: Items<Section<A>>,
    pub body: Items<Stmt<A>>,
}

impl<A: Drop> Drop for ProgramDecl<A> {
    fn drop(self) {
        let ProgramDecl {
            line: _,
            name,
            sections,
            body,
        } = self;
        drop(name);
        drop(sections);
        drop(body);
    }
}
