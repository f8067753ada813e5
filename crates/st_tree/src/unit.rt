//! A program text as a whole.

use crate::configuration::Configuration;
use crate::declaration::{ClassDecl, FunctionDecl, InterfaceDecl, ProgramDecl, Section, TypeDecl};
use plc_text::Items;

/// What stands at the top of a program text.
#[derive(Drop)]
pub enum Decl<A> {
    /// TYPE, with its line.
    Types(u32, Items<TypeDecl<A>>),
    /// VAR_GLOBAL
    Globals(Section<A>),
    Interface(InterfaceDecl<A>),
    /// CLASS or FUNCTION_BLOCK
    Class(ClassDecl<A>),
    Function(FunctionDecl<A>),
    Program(ProgramDecl<A>),
    Configuration(Configuration<A>),
}

/// A program text as it is written: the note of each node is its line.
#[derive(Drop)]
pub struct Unit {
    pub decls: Items<Decl<u32>>,
}
