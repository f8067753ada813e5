//! The programs of a unit, found by their names.

ghost use Rattle.std.specs.Prelude.{◌≡◌, ◌∷◌, [], ◌++◌, ℕ, List, map, option_map, slice_get, Some, IfOk, OnOk};
ghost use Rattle.st_tree.specs.declared.declaration.ProgramDecl.{ProgramDecl as AProgram};
ghost use Rattle.st_tree.specs.declared.unit.Decl.{Decl as ADecl};
ghost use Rattle.st_unit_rules.specs.declared_names.Declarations.{programs_in};
ghost use Rattle.check_names.specs.name_spaces.NamesIn.{names_of};
ghost use Rattle.check_regions.specs.region_rules.Taken.{IsInstanced};

use crate::program_instances::index::note;
use check_regions::{InstancedProgram, program_values};
use class_rows::first_place;
use plc_text::{NoMemory, Text};
use st_names::Names;
use st_tree::{Decl, Name, ProgramDecl};
use std::alloc::Global;
use symbol_table::unit_tables::UnitTables;
use type_resolution::told_locals::Declaring;

/// The programs of a unit in the order of the text, with the first place of each name.
pub struct UnitPrograms<'u> {
    names: Vec<&'u Name>,
    programs: Vec<InstancedProgram<'u>>,
    places: Names<u32>,
}

// By hand, so that a drop is one call: a derived one is written out wherever a `?` may need it.
impl Drop for UnitPrograms<'_> {
    fn drop(self) {
        let UnitPrograms {
            names,
            programs,
            places,
        } = self;
        drop(names);
        drop(programs);
        drop(places);
    }
}

/// What each instance of a program takes.
fn instanced<'u>(
    alloc: Global,
    tables: &UnitTables<'_>,
    program: &'u ProgramDecl<u32>,
) -> Result<InstancedProgram<'u>, NoMemory>
    ensures { IfOk result (λ g. IsInstanced tables.now.decls (Some g) (Some program.now)) }
{
    let sections = program.sections.as_slice();
    let locals = tables.locals(alloc, None, false, &Declaring::Program(sections))?;
    let values = program_values(tables.sizes(), locals.as_slice());
    Ok(InstancedProgram { values, sections })
}

fn place_of(count: usize) -> Result<u32, NoMemory>
    ensures { IfOk result (λ place. place ≡ count) }
{
    match u32::try_from(count) {
        Ok(place) => Ok(place),
        Err(_) => Err(NoMemory),
    }
}

fn add_name<'u>(names: &mut Vec<&'u Name>, program: &'u ProgramDecl<u32>) -> Result<(), NoMemory>
    ensures { OnOk result (names_of names.new.items ≡ names_of names.old.items ++ program.now.name ∷ []) }
{
    names.push(&program.name)?;
    Ok(())
}

impl<'u> UnitPrograms<'u> {
    ghost use Rattle.check_configurations.specs.program_instances.Programs.{Has, HasPrograms, IsProgramNamed};

    #[tactic(auto, using(crate::proofs::program_instances::ProgramLaws::has_none))]
    fn none(alloc: Global) -> UnitPrograms<'u>
        ensures { (decls : List (ADecl ℕ)) → Has result decls [] }
    {
        UnitPrograms {
            names: Vec::new(alloc),
            programs: Vec::new(alloc),
            places: Names::new(alloc),
        }
    }

    /// Adds a program.
    fn add(
        &mut self,
        alloc: Global,
        tables: &UnitTables<'_>,
        program: &'u ProgramDecl<u32>,
    ) -> Result<(), NoMemory>
        ensures { OnOk result ((ps : List (AProgram ℕ)) → Has self.old tables.now.decls ps → Has self.new tables.now.decls (ps ++ program.now ∷ [])) }
    {
        let place = place_of(self.programs.len())?;
        note(alloc, &mut self.places, &program.name.text, place)?;
        let instanced = instanced(alloc, tables, program)?;
        self.programs.push(instanced)?;
        add_name(&mut self.names, program)?;
        Ok(())
    }

    /// Adds what is declared, if that is a program.
    #[tactic(auto, using(crate::proofs::program_instances::ProgramLaws::no_program))]
    fn add_declared(
        &mut self,
        alloc: Global,
        tables: &UnitTables<'_>,
        decl: &'u Decl<u32>,
    ) -> Result<(), NoMemory>
        ensures { OnOk result ((ps : List (AProgram ℕ)) → Has self.old tables.now.decls ps → Has self.new tables.now.decls (ps ++ programs_in (decl.now ∷ []))) }
    {
        match decl {
            Decl::Program(program) => {
                self.add(alloc, tables, program)?;
                Ok(())
            }
            Decl::Types(_, _) => Ok(()),
            Decl::Globals(_) => Ok(()),
            Decl::Interface(_) => Ok(()),
            Decl::Class(_) => Ok(()),
            Decl::Function(_) => Ok(()),
            Decl::Configuration(_) => Ok(()),
        }
    }

    /// The programs of the unit of these tables, in time linear in it but for what `UnitTables::locals` says.
    pub fn build(alloc: Global, tables: &UnitTables<'u>) -> Result<UnitPrograms<'u>, NoMemory>
        ensures { IfOk result (λ t. HasPrograms t tables.now.decls) }
    {
        let decls = tables.unit().decls.as_slice();
        let mut programs = UnitPrograms::none(alloc);
        for decl in decls {
            programs.add_declared(alloc, tables, decl)?;
        }
        Ok(programs)
    }

    /// The names of the programs, in the order of the text.
    pub fn names(&self) -> &[&'u Name]
        ensures { (decls : List (ADecl ℕ)) → HasPrograms self.now decls → names_of result.now ≡ map (λ p. p.name) (programs_in decls) }
    {
        self.names.as_slice()
    }

    /// The program at a place, with this place.
    fn program_at(&self, place: u32) -> Option<(u32, InstancedProgram<'u>)>
        ensures { result ≡ option_map (λ g. (place, g)) (slice_get self.now.programs.items place) }
    {
        match self.programs.get(place as usize) {
            Some(program) => Some((place, *program)),
            None => None,
        }
    }

    /// The first program of this name, by its number, with what each instance of it takes.
    pub fn program_named(&self, name: &Text) -> Option<(u32, InstancedProgram<'u>)>
        ensures { (decls : List (ADecl ℕ)) → HasPrograms self.now decls → IsProgramNamed decls name.now result }
    {
        match first_place(&self.places, name) {
            Some(place) => self.program_at(place),
            None => None,
        }
    }
}
