//! A checked program.

use crate::declaration::{ClassDecl, FunctionDecl, InterfaceDecl, ProgramDecl, TypeDecl};
use crate::initial::Init;
use crate::marks::Marks;
use plc_text::{Items, Text};
use st_types::StType;

/// What a name means. A number counts from 0 in the order of the text.
#[derive(Clone, Copy, Debug, PartialEq, Eq)]
pub enum Target {
    /// The node names nothing.
    Nothing,
    /// A local of the routine: its result, its inputs, outputs and in-outs in the order of the text, then its other variables.
    /// Of a body the in-outs and temporary variables in the order of the text, those of its bases first.
    Local(u32),
    /// A variable of the class or program, those of its bases first.
    Variable(u32),
    /// A field of a structure.
    Field(u32),
    /// A global that is no constant: its region.
    Region(u32),
    Function(u32),
    /// A method of the class or interface that the node's place has.
    Method(u32),
    /// A conversion to the type of the call.
    Conversion,
    /// An input, output or in-out of what is called, counted among these in the order of the text, those of its bases first.
    Parameter(u32),
    /// A value of an enumeration.
    Enumerator(u32),
    /// A constant, or an expression where the language asks for a constant, with its value: a number of its type, or the
    /// number of an enumerator.
    Constant(i128),
}

/// What is found out about a node.
#[derive(Debug)]
pub struct Note {
    pub line: u32,
    pub kind: StType,
    pub target: Target,
}

// By hand, so that a drop is one call: a derived one is written out wherever a `?` may need it, and a proof goes over each part.
impl Drop for Note {
    fn drop(self) {
        let Note {
            line: _,
            kind: _,
            target: _,
        } = self;
    }
}

/// A region of the store: a global, or a program instance.
pub struct RegionDecl {
    pub name: Text,
    /// Whether it is a program instance.
    pub program: bool,
    /// For a program instance its instance type: the number of the program, counted behind all classes.
    pub kind: StType,
    pub marks: Marks,
    /// Of a global, where it has one of its own.
    pub initial: Option<Init<Note>>,
    /// Of a global, where it has one, in upper case.
    pub address: Option<Text>,
}

impl Drop for RegionDecl {
    fn drop(self) {
        let RegionDecl {
            name,
            program: _,
            kind: _,
            marks,
            initial,
            address,
        } = self;
        drop(name);
        drop(marks);
        drop(initial);
        drop(address);
    }
}

/// A task with its programs, which are numbers of regions.
pub struct TaskDecl {
    pub name: Text,
    /// In milliseconds.
    pub interval: Option<u32>,
    pub priority: Option<u32>,
    pub programs: Items<u32>,
}

impl Drop for TaskDecl {
    fn drop(self) {
        let TaskDecl {
            name,
            interval,
            priority,
            programs,
        } = self;
        drop(name);
        drop(interval);
        drop(priority);
        drop(programs);
    }
}

/// A checked unit: the declarations of each sort in the order of the text, function blocks among the classes.
pub struct Program {
    pub types: Items<TypeDecl<Note>>,
    pub classes: Items<ClassDecl<Note>>,
    pub interfaces: Items<InterfaceDecl<Note>>,
    pub functions: Items<FunctionDecl<Note>>,
    pub programs: Items<ProgramDecl<Note>>,
    pub regions: Items<RegionDecl>,
    pub tasks: Items<TaskDecl>,
}

impl Drop for Program {
    fn drop(self) {
        let Program {
            types,
            classes,
            interfaces,
            functions,
            programs,
            regions,
            tasks,
        } = self;
        drop(types);
        drop(classes);
        drop(interfaces);
        drop(functions);
        drop(programs);
        drop(regions);
        drop(tasks);
    }
}
