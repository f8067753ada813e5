//! The routines that a task reaches: what its programs enter, and what these enter in turn.

ghost use Rattle.std.specs.Prelude.{◌≡◌, ℕ, List, Some, option_map, slice_get, IfOk, OnOk};
ghost use Rattle.st_values.specs.Program.{conforms};
ghost use Rattle.st_values.specs.View.{program_of};
ghost use Rattle.st_meaning.specs.Enter.{programs_of, program_body};
ghost use Rattle.st_meaning.specs.st_frame.Footprint.{Enters};
ghost use Rattle.program_tables.specs.Routine.{routine_of};
ghost use Rattle.body_uses.specs.Uses.{called_of, use_of, uses_of, Knows};
ghost use Rattle.footprints.specs.reached_routines.Conformers.{AreConformers};
ghost use Rattle.footprints.specs.reached_routines.Reached.{IsReached};
ghost use Rattle.footprints.specs.reached_routines.Private.Families.{Conforms};
ghost use Rattle.footprints.specs.reached_routines.Private.Adds as words;
ghost use Rattle.footprints.specs.reached_routines.Private.Asked.{AreAsked};
ghost use Rattle.footprints.specs.reached_routines.Private.Serves.{Serves};

use crate::reached_routines::asked::{Question, ask};
use crate::reached_routines::conformers::{Conformers, Family, family_of};
use crate::reached_routines::found::Found;
use body_uses::{Callables, Called, Use, body_uses};
use call_steps::class_of_kind;
use plc_text::{NoMemory, Text};
use program_tables::{ProgramTables, RoutineId};
use st_tree::Program;
use st_types::StType;
use std::alloc::Global;
use std::collections::HashSet;

/// What a search goes by: tables of one program.
#[derive(Clone, Copy)]
struct Sources<'a, 'p> {
    callables: Callables<'a, 'p>,
    program: &'p Program,
    conformers: &'a Conformers,
}

/// What was found so far, and the calls that were followed.
#[derive(Drop)]
struct Search {
    found: Found,
    asked: HashSet<Question>,
}

/// The routine that a class enters: its method of a name, or its body.
fn aimed(tables: &ProgramTables, name: Option<&Text>, class: u32) -> Option<RoutineId>
    ensures { option_map (routine_of tables.now) result ≡ words.aimed (program_of tables.now) (option_map (λ n. n.now) name.entry) class }
{
    match name {
        Some(name) => tables.lookup(class, name),
        None => tables.body_of(class),
    }
}

/// Adds a routine, if there is one.
fn add_some(
    found: &mut Found,
    tables: &ProgramTables,
    id: Option<RoutineId>,
) -> Result<(), NoMemory>
    ensures { OnOk result (words.Adds tables.now (words.Is (option_map (routine_of tables.now) id)) found.old.ids.items found.new.ids.items) }
{
    if let Some(id) = id {
        found.add(id)?;
    }
    Ok(())
}

/// Adds what each of these classes enters.
fn add_aimed(
    found: &mut Found,
    tables: &ProgramTables,
    classes: &[u32],
    name: Option<&Text>,
) -> Result<(), NoMemory>
    ensures { OnOk result (words.Adds tables.now (words.Via classes.now (words.Aims (program_of tables.now) (option_map (λ n. n.now) name.entry))) found.old.ids.items found.new.ids.items) }
{
    let mut left = classes;
    'classes: while let Some((class, behind)) = left.split_first() {
        add_some(found, tables, aimed(tables, name, *class))?;
        left = behind;
    }
    Ok(())
}

/// Adds what the classes that conform to a type enter, once for each type and name.
fn follow_kind(
    alloc: Global,
    search: &mut Search,
    s: &Sources<'_, '_>,
    kind: &StType,
    name: Option<&Text>,
) -> Result<(), NoMemory>
    requires served { Serves s.now }
    requires asked { AreAsked s.now.callables.tables.now search.old.asked search.old.found.ids.items }
    ensures adds { OnOk result (words.Adds s.now.callables.tables.now (words.ByKind (program_of s.now.callables.tables.now) kind.now (option_map (λ n. n.now) name.entry)) search.old.found.ids.items search.new.found.ids.items) }
    ensures asked { OnOk result (AreAsked s.now.callables.tables.now search.new.asked search.new.found.ids.items) }
{
    match family_of(kind) {
        Some(family) => {
            if ask(alloc, &mut search.asked, family, name)? {
                let classes = s.conformers.of(kind);
                add_aimed(&mut search.found, s.callables.tables, classes, name)?;
                Ok(())
            } else {
                Ok(())
            }
        }
        None => Ok(()),
    }
}

/// Adds what a call enters.
fn enter(
    alloc: Global,
    search: &mut Search,
    s: &Sources<'_, '_>,
    called: Called<'_>,
) -> Result<(), NoMemory>
    requires served { Serves s.now }
    requires asked { AreAsked s.now.callables.tables.now search.old.asked search.old.found.ids.items }
    ensures adds { OnOk result (words.Adds s.now.callables.tables.now (Enters (program_of s.now.callables.tables.now) (called_of called.entry)) search.old.found.ids.items search.new.found.ids.items) }
    ensures asked { OnOk result (AreAsked s.now.callables.tables.now search.new.asked search.new.found.ids.items) }
{
    let tables = s.callables.tables;
    match called {
        Called::Function(number) => {
            add_some(&mut search.found, tables, tables.function(number))?;
            Ok(())
        }
        Called::MethodFrom(class, name) => {
            add_some(&mut search.found, tables, tables.lookup(class, name))?;
            Ok(())
        }
        Called::BodyFrom(class) => {
            add_some(&mut search.found, tables, tables.body_of(class))?;
            Ok(())
        }
        Called::MethodOf(kind, name) => {
            follow_kind(alloc, search, s, kind, Some(name))?;
            Ok(())
        }
        Called::BodyOf(kind) => {
            follow_kind(alloc, search, s, kind, None)?;
            Ok(())
        }
    }
}

/// Adds what a use enters, if it is a call.
fn follow(
    alloc: Global,
    search: &mut Search,
    s: &Sources<'_, '_>,
    one: Use<'_>,
) -> Result<(), NoMemory>
    requires served { Serves s.now }
    requires asked { AreAsked s.now.callables.tables.now search.old.asked search.old.found.ids.items }
    ensures adds { OnOk result (words.Adds s.now.callables.tables.now (words.EntersBy (program_of s.now.callables.tables.now) (use_of one.entry)) search.old.found.ids.items search.new.found.ids.items) }
    ensures asked { OnOk result (AreAsked s.now.callables.tables.now search.new.asked search.new.found.ids.items) }
{
    match one {
        Use::Calls(called) => {
            enter(alloc, search, s, called)?;
            Ok(())
        }
        Use::Names(_) => Ok(()),
        Use::Follows(_) => Ok(()),
        Use::Changes(_) => Ok(()),
    }
}

/// Adds what uses enter.
fn follow_all(
    alloc: Global,
    search: &mut Search,
    s: &Sources<'_, '_>,
    uses: &[Use<'_>],
) -> Result<(), NoMemory>
    requires served { Serves s.now }
    requires asked { AreAsked s.now.callables.tables.now search.old.asked search.old.found.ids.items }
    ensures adds { OnOk result (words.Adds s.now.callables.tables.now (words.Via (uses_of uses.now) (words.EntersBy (program_of s.now.callables.tables.now))) search.old.found.ids.items search.new.found.ids.items) }
    ensures asked { OnOk result (AreAsked s.now.callables.tables.now search.new.asked search.new.found.ids.items) }
{
    for one in uses {
        follow(alloc, search, s, *one)?;
    }
    Ok(())
}

/// Adds what the text of a routine enters.
fn visit(
    alloc: Global,
    search: &mut Search,
    s: &Sources<'_, '_>,
    id: RoutineId,
) -> Result<(), NoMemory>
    requires served { Serves s.now }
    requires asked { AreAsked s.now.callables.tables.now search.old.asked search.old.found.ids.items }
    ensures adds { OnOk result (words.Adds s.now.callables.tables.now (words.EnteredIn (program_of s.now.callables.tables.now) (routine_of s.now.callables.tables.now id)) search.old.found.ids.items search.new.found.ids.items) }
    ensures asked { OnOk result (AreAsked s.now.callables.tables.now search.new.asked search.new.found.ids.items) }
{
    let uses = body_uses(alloc, s.callables, s.program, id)?;
    follow_all(alloc, search, s, uses.as_slice())?;
    Ok(())
}

/// Adds the body of the program that a region is an instance of.
fn add_program(found: &mut Found, s: &Sources<'_, '_>, region: u32) -> Result<(), NoMemory>
    requires { Serves s.now }
    ensures { OnOk result (words.Adds s.now.callables.tables.now (words.Begins (program_of s.now.callables.tables.now) region) found.old.ids.items found.new.ids.items) }
{
    match s.program.regions.get(region as usize) {
        Some(decl) => {
            let tables = s.callables.tables;
            add_some(found, tables, tables.body_of(class_of_kind(&decl.kind)))?;
            Ok(())
        }
        None => Ok(()),
    }
}

/// The program instances of a task, as regions.
pub fn programs_of(program: &Program, task: u32) -> &[u32]
    ensures { result.now ≡ programs_of (program_of program.now) task }
{
    match program.tasks.get(task as usize) {
        Some(task) => task.programs.as_slice(),
        None => &[],
    }
}

/// Adds the bodies of the programs.
fn begin(found: &mut Found, s: &Sources<'_, '_>, programs: &[u32]) -> Result<(), NoMemory>
    requires { Serves s.now }
    ensures { OnOk result (words.Adds s.now.callables.tables.now (words.Via programs.now (words.Begins (program_of s.now.callables.tables.now))) found.old.ids.items found.new.ids.items) }
{
    let mut left = programs;
    'programs: while let Some((region, behind)) = left.split_first() {
        add_program(found, s, *region)?;
        left = behind;
    }
    Ok(())
}

/// The routines that the cycles of a task may enter: the bodies of its programs, and what their texts call, in any number of steps.
/// The text of each is looked at once, and each call through an instance, a reference or an interface is followed once for each
/// name and type. The tables are those of the program. More than 2^32 - 1 routines answer `NoMemory`.
pub fn reached_routines(
    alloc: Global,
    callables: Callables<'_, '_>,
    program: &Program,
    conformers: &Conformers,
    task: u32,
) -> Result<Vec<RoutineId>, NoMemory>
    requires known { Knows callables }
    requires same { callables.tables.now ≡ program.now }
    requires conformers { AreConformers (program_of program.now) conformers.now }
    ensures { IfOk result (λ ids. IsReached program.now task ids.items) }
{
    let s = Sources {
        callables,
        program,
        conformers,
    };
    let mut search = Search {
        found: Found::new(alloc, program)?,
        asked: HashSet::new(alloc),
    };
    begin(&mut search.found, &s, programs_of(program, task))?;
    'queue: for next in 0..u32::MAX {
        match search.found.at(next) {
            Some(id) => visit(alloc, &mut search, &s, id)?,
            None => return Ok(search.found.ids),
        }
    }
    Err(NoMemory)
}
