//! The typed trees of declarations.

ghost use Rattle.std.specs.Prelude.{◌≡◌, ◌∷◌, [], ◌++◌, OnOk};

use plc_text::{Items, NoMemory};
use st_tree::{ClassDecl, FunctionDecl, InterfaceDecl, Note, ProgramDecl, TypeDecl};
use std::alloc::Global;

/// The typed trees of declarations, of each sort in the order of the text.
#[derive(Drop)]
pub struct Trees {
    pub types: Items<TypeDecl<Note>>,
    pub classes: Items<ClassDecl<Note>>,
    pub interfaces: Items<InterfaceDecl<Note>>,
    pub functions: Items<FunctionDecl<Note>>,
    pub programs: Items<ProgramDecl<Note>>,
}

impl Trees {
    /// There are none.
    pub fn none(alloc: Global) -> Trees
        ensures types { result.types ≡ [] }
        ensures classes { result.classes ≡ [] }
        ensures interfaces { result.interfaces ≡ [] }
        ensures functions { result.functions ≡ [] }
        ensures programs { result.programs ≡ [] }
    {
        Trees {
            types: Items::new(alloc),
            classes: Items::new(alloc),
            interfaces: Items::new(alloc),
            functions: Items::new(alloc),
            programs: Items::new(alloc),
        }
    }

    /// Adds an entry of TYPE.
    pub fn add_entry(&mut self, entry: TypeDecl<Note>) -> Result<(), NoMemory>
        ensures { OnOk result (self.new ≡ record self.old { types = self.old.types ++ entry ∷ [] }) }
    {
        self.types.push(entry)?;
        Ok(())
    }

    /// Adds a class or a function block.
    pub fn add_class(&mut self, class: ClassDecl<Note>) -> Result<(), NoMemory>
        ensures { OnOk result (self.new ≡ record self.old { classes = self.old.classes ++ class ∷ [] }) }
    {
        self.classes.push(class)?;
        Ok(())
    }

    /// Adds an interface.
    pub fn add_interface(&mut self, interface: InterfaceDecl<Note>) -> Result<(), NoMemory>
        ensures { OnOk result (self.new ≡ record self.old { interfaces = self.old.interfaces ++ interface ∷ [] }) }
    {
        self.interfaces.push(interface)?;
        Ok(())
    }

    /// Adds a function.
    pub fn add_function(&mut self, function: FunctionDecl<Note>) -> Result<(), NoMemory>
        ensures { OnOk result (self.new ≡ record self.old { functions = self.old.functions ++ function ∷ [] }) }
    {
        self.functions.push(function)?;
        Ok(())
    }

    /// Adds a program.
    pub fn add_program(&mut self, program: ProgramDecl<Note>) -> Result<(), NoMemory>
        ensures { OnOk result (self.new ≡ record self.old { programs = self.old.programs ++ program ∷ [] }) }
    {
        self.programs.push(program)?;
        Ok(())
    }
}
